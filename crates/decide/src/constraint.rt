// Whether a constraint applies and fails, and the lowest that does.
ghost use Rattle.std.specs.Prelude.{◌≡◌};
ghost use Rattle.decision.specs.Decide.{separation_broken, roster_broken, companion_broken, broken, fails};
ghost use Rattle.decide.specs.Inner.Parts.{ConstraintHere, NthConstraint, rules_in, constraint_in, request_in};
ghost use Rattle.decide.specs.Inner.Kept.{Sides, Leaves};
ghost use Rattle.decide.specs.Inner.Verdicts.{KeptVerdicts, Written};
ghost use Rattle.decide.specs.Inner.Rules.{first_constraint};

use crate::kept::Side;
use crate::policy::Policy;
use crate::verdicts::Verdict;
use crate::word::word_in;
use decision::Query;
use format::header;

impl Policy<'_> {
    // Whether the separation at a place is broken under a switch word.
    fn separation_broken(self, at: usize, switches: u32) -> bool
        requires { ConstraintHere self.image.now at }
        ensures { result ≡ separation_broken (rules_in self.entry.image.now switches) (constraint_in self.entry.image.now at) }
    {
        let mut first = [false; 1024];
        self.mark_at(at + 6, &mut first);
        let mut second = [false; 1024];
        self.mark_at(at + 8, &mut second);
        self.any_shared(&first, &second, switches)
    }

    // Whether the roster at a place is broken: a rule reaches its second argument from off its list.
    fn roster_broken(self, at: usize, switches: u32) -> bool
        requires { ConstraintHere self.image.now at }
        ensures { result ≡ roster_broken (rules_in self.entry.image.now switches) (constraint_in self.entry.image.now at) }
    {
        let mut second = [false; 1024];
        self.mark_at(at + 8, &mut second);
        let mut list = [false; 1024];
        let types = (usize::from(self.image[at]) - 11) / 2;
        self.mark_types(at + 11, types, &mut list);
        self.any_rule(&second, &list, false, switches)
    }

    // Whether the companion at a place is broken: no rule reaches its first argument from its second.
    fn companion_broken(self, at: usize, switches: u32) -> bool
        requires { ConstraintHere self.image.now at }
        ensures { result ≡ companion_broken (rules_in self.entry.image.now switches) (constraint_in self.entry.image.now at) }
    {
        let mut first = [false; 1024];
        self.mark_at(at + 6, &mut first);
        let mut second = [false; 1024];
        self.mark_at(at + 8, &mut second);
        !self.any_rule(&first, &second, true, switches)
    }

    // Whether the predicate of the constraint at a place is broken: ban, separation, roster or companion. An accepted constraint
    // has no other number.
    fn predicate_broken(self, at: usize, switches: u32) -> bool
        requires { ConstraintHere self.image.now at }
        ensures { result ≡ broken (rules_in self.entry.image.now switches) (constraint_in self.entry.image.now at) }
    {
        match self.image[at + 10] {
            0 => true,
            1 => self.separation_broken(at, switches),
            2 => self.roster_broken(at, switches),
            3 => self.companion_broken(at, switches),
            _ => false,
        }
    }

    // Whether constraint n, at a place, applies to the query and fails. Class and action are tested first, then the arguments,
    // with what is found of their groups kept, and the rules last, with the verdict kept, so that they are asked once under a
    // word.
    fn constraint_fails(
        self,
        q: Query,
        source: &mut Side,
        dest: &mut Side,
        n: usize,
        at: usize,
        verdicts: &mut [Verdict; 256],
    ) -> bool
        requires { Sides self.image.now q source.old dest.old
            × NthConstraint self.image.now n at × KeptVerdicts self.image.now q.switches verdicts.old }
        ensures { Leaves
            (fails (rules_in self.entry.image.now q.switches) (request_in self.entry.image.now q)
            (constraint_in self.entry.image.now at))
            (Sides self.entry.image.now q source.new dest.new
            × Written self.entry.image.now q.switches verdicts.old verdicts.new) result }
    {
        if word_in(self.image, at + 2) != usize::from(q.class) {
            return false;
        }
        if word_in(self.image, at + 4) != usize::from(q.action) {
            return false;
        }
        if !self.inside(at + 6, q.source, source) {
            return false;
        }
        if !self.inside(at + 8, q.dest, dest) {
            return false;
        }
        if let Some(broken) = verdicts[n].front() {
            return broken;
        }
        let broken = self.predicate_broken(at, q.switches);
        verdicts[n] = verdicts[n].with_front(broken);
        broken
    }

    // The lowest constraint that applies to the query and fails.
    pub(crate) fn first_constraint(
        self,
        q: Query,
        source: &mut Side,
        dest: &mut Side,
        verdicts: &mut [Verdict; 256],
    ) -> Option<usize>
        requires { Sides self.image.now q source.old dest.old
            × KeptVerdicts self.image.now q.switches verdicts.old }
        ensures { Leaves (first_constraint self.entry.image.now q)
            (Written self.entry.image.now q.switches verdicts.old verdicts.new) result }
    {
        let count = word_in(self.image, header::CONSTRAINTS_AT);
        let mut at = self.starts.constraints;
        for n in 0..count {
            if self.constraint_fails(q, source, dest, n, at, verdicts) {
                return Some(n);
            }
            at += usize::from(self.image[at]);
        }
        None
    }
}
