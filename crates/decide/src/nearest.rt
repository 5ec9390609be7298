// The rule that came nearest to a query that no rule covers: the one that passes the most steps before the first that fails, and
// the lowest of those.
ghost use Rattle.std.specs.Prelude.{◌≡◌};
ghost use Rattle.decision.specs.Decide.{nearest};
ghost use Rattle.decide.specs.Inner.Parts.{rules_in, request_in};
ghost use Rattle.decide.specs.Inner.Kept.{Sides};
ghost use Rattle.decide.specs.Inner.Nearer.{Uncovered, AtNearest, Comes};

use crate::kept::Side;
use crate::policy::Policy;
use crate::rules::{is_allow, past};
use crate::word::word_in;
use decision::{Near, Nearest, Query};
use format::header;

// A rule that comes nearer, where it stands and how many steps it passes.
#[derive(Clone, Copy)]
pub(crate) struct Next {
    pub n: usize,
    pub at: usize,
    pub steps: usize,
}

impl Policy<'_> {
    // The first rule, from a rule on, that comes nearer than the nearest so far, if one does.
    fn next_nearer(
        self,
        q: Query,
        source: &mut Side,
        dest: &mut Side,
        count: usize,
        best: Near,
        from: usize,
        place: usize,
    ) -> Option<Next>
        requires { AtNearest self.image.now q best count from place
            × Sides self.image.now q source.old dest.old }
        ensures { Comes self.entry.image.now q best count from result
            × Sides self.entry.image.now q source.new dest.new }
    {
        let mut at = place;
        for n in from..count {
            let allow = is_allow(self.image, at);
            let steps = self.steps_at(at, allow, q, source, dest, best.steps);
            if best.steps < steps {
                return Some(Next { n, at, steps });
            }
            at = past(self.image, at, allow);
        }
        None
    }

    // The nearest rule. The walk ends at the first rule that only the action stops, as no rule comes nearer.
    pub(crate) fn nearest_rule(self, q: Query, source: &mut Side, dest: &mut Side) -> Nearest
        requires { Sides self.image.now q source.old dest.old
            × Uncovered self.image.now q }
        ensures { result ≡ nearest (request_in self.entry.image.now q) (rules_in self.entry.image.now q.switches) }
    {
        let count = word_in(self.image, header::RULES_AT);
        if count == 0 {
            return None;
        }
        let mut best = Near { steps: 0, rule: 0 };
        let mut at = self.starts.rules;
        let mut n: usize = 0;
        while let Some(next) = self.next_nearer(q, source, dest, count, best, n, at) {
            if next.steps == 4 {
                return Some(Near {
                    steps: 4,
                    rule: next.n,
                });
            }
            best = Near {
                steps: next.steps,
                rule: next.n,
            };
            // its kind is not known here
            at = past(self.image, next.at, false);
            n = next.n + 1;
        }
        Some(best)
    }
}
