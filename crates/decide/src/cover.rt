// The lowest rule that covers a query.
ghost use Rattle.std.specs.Prelude.{◌≡◌};
ghost use Rattle.decision.specs.Sets.{within};
ghost use Rattle.decide.specs.Inner.Parts.{RuleHere, TypeAt, set_in, set_at};
ghost use Rattle.decide.specs.Inner.Kept.{SideOf, Sides, Leaves};
ghost use Rattle.decide.specs.Inner.Rules.{allow_at, may_at, if_asked, first_rule};

use crate::condition::is_on;
use crate::kept::Side;
use crate::policy::Policy;
use crate::rules::{is_allow, past};
use crate::word::word_in;
use decision::Query;
use format::header;

// What the condition, the class and the action of the rule at a place let through. A transition lets all through. Most rules are
// of another class, which the low byte tells first.
fn may(image: &[u8], at: usize, allow: bool, q: Query) -> bool
    requires { RuleHere image.now at × (allow ≡ allow_at image.now at) }
    ensures { result ≡ may_at image.now at q }
{
    if !allow {
        return true;
    }
    if usize::from(image[at + 7]) != usize::from(q.class) % 256 {
        return false;
    }
    if !is_on(q.switches, image[at + 10]) {
        return false;
    }
    if word_in(image, at + 6) != usize::from(q.class) {
        return false;
    }
    word_in(image, at + 8) == usize::from(q.action)
}

impl Policy<'_> {
    // Whether the type in the field at a place holds a type of the query, where that is asked; else it may.
    fn holds_if_asked(self, at: usize, asked: bool, t: u16, side: &mut Side) -> bool
        requires { TypeAt self.image.now at × SideOf self.image.now t side.old }
        ensures { Leaves (if_asked asked (within (set_in self.entry.image.now t) (set_at self.entry.image.now at)))
            (SideOf self.entry.image.now t side.new) result }
    {
        if !asked {
            return true;
        }
        self.inside(at, t, side)
    }

    // The lowest rule that covers the query. Condition, class and
    // action are tested first, then the source, then the destination, with what is found of their groups kept: where no rule
    // covers the query, its steps ask for the sources first. Where the destination stopped two rules in a row, the next one's is
    // asked before its source, so that no source is walked that tells nothing.
    pub(crate) fn first_rule(self, q: Query, source: &mut Side, dest: &mut Side) -> Option<usize>
        requires { Sides self.image.now q source.old dest.old }
        ensures { Leaves (first_rule self.entry.image.now q)
            (Sides self.entry.image.now q source.new dest.new) result }
    {
        let count = word_in(self.image, header::RULES_AT);
        let mut n: usize = 0;
        let mut at = self.starts.rules;
        // whether its destination stopped the last rule that was asked, and the one before it too
        let mut last = false;
        let mut both = false;
        // a loop that breaks with the rule's number, and a label for the members: document 01 names these forms
        let rule = 'rules: loop {
            if count <= n {
                return None;
            }
            let allow = is_allow(self.image, at);
            if may(self.image, at, allow, q) {
                let to = at + 4;
                if self.holds_if_asked(to, both, q.dest, dest) {
                    if self.inside(at + 2, q.source, source) {
                        let t = word_in(self.image, to);
                        if !dest.known_outside(t) {
                            let span = self.members(to);
                            let mut m = span.from;
                            let mut left = span.count;
                            let mut hits: usize = 0;
                            'members: loop {
                                if left == 0 {
                                    if hits == dest.size {
                                        break 'rules n;
                                    }
                                    break 'members;
                                }
                                if dest.marks[word_in(self.image, m)] {
                                    hits += 1;
                                }
                                m += 2;
                                left -= 1;
                            }
                            dest.keep_outside(t);
                        }
                        both = last;
                        last = true;
                    } else {
                        last = false;
                        both = false;
                    }
                }
            }
            at = past(self.image, at, allow);
            n += 1;
        };
        Some(rule)
    }
}
