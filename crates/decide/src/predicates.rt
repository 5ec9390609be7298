// What predicates ask of the rules: live ones alone, of every class and action. A roster and a companion ask whether there is one
// that reaches an argument, and what its source is.
ghost use Rattle.std.specs.Prelude.{◌≡◌};
ghost use Rattle.decision.specs.Sets.{any_of};
ghost use Rattle.decide.specs.Inner.Parts.{RuleHere, rules_in};
ghost use Rattle.decide.specs.Inner.Marks.{any_is, any_marked};
ghost use Rattle.decide.specs.Inner.Kept.{KeptTest, Leaves};
ghost use Rattle.decide.specs.Inner.Rules.{reaching_at, reaching_from};

use crate::kept::Kept;
use crate::policy::Policy;
use crate::rules::{is_live, past};
use crate::word::word_in;
use format::header;

impl Policy<'_> {
    // Whether the rule at a place is live and its destination has a member that is marked.
    pub(crate) fn reaches(
        self,
        at: usize,
        live: bool,
        reach: &[bool; 1024],
        kreach: &mut [Kept; 256],
    ) -> bool
        requires { RuleHere self.image.now at × KeptTest (any_marked reach.now) self.image.now kreach.old }
        ensures { Leaves (reaching_at self.entry.image.now reach.now at live)
            (KeptTest (any_marked reach.now) self.entry.image.now kreach.new) result }
    {
        if !live {
            return false;
        }
        self.meets(at + 4, reach, true, kreach)
    }

    // Whether there is such a rule, live under a switch word, whose source has a member with a mark of the value in `source`.
    pub(crate) fn any_rule(
        self,
        reach: &[bool; 1024],
        source: &[bool; 1024],
        value: bool,
        switches: u32,
    ) -> bool
        ensures { result ≡ any_of (reaching_from reach.now (any_is source.now value)) (rules_in self.entry.image.now switches) }
    {
        let count = word_in(self.image, header::RULES_AT);
        let mut kreach = [Kept::Unasked; 256];
        let mut ksource = [Kept::Unasked; 256];
        let mut at = self.starts.rules;
        for _n in 0..count {
            let live = is_live(self.image, at, switches);
            if self.reaches(at, live, reach, &mut kreach) {
                if self.meets(at + 2, source, value, &mut ksource) {
                    return true;
                }
            }
            at = past(self.image, at, live);
        }
        false
    }
}
