// How many steps the rule at a place passes of a query that no rule covers: condition, source, destination, class. As none
// covers, the action is not asked.
ghost use Rattle.std.specs.Prelude.{◌≡◌};
ghost use Rattle.format.specs.Check.{Accepted};
ghost use Rattle.decide.specs.Inner.Parts.{TypeAt, RuleHere, rule_in, request_in};
ghost use Rattle.decide.specs.Inner.Kept.{SideOf, Sides, Leaves};
ghost use Rattle.decide.specs.Inner.Rules.{allow_at};
ghost use Rattle.decide.specs.Inner.Nearer.{off_at, other_class_at, class_stops, stops_at, On, SourceIn, short_steps, Counts};

use crate::condition::is_on;
use crate::kept::{Kept, Side, find_inside};
use crate::policy::Policy;
use crate::rules::is_allow;
use crate::word::word_in;
use decision::Query;

// Whether the rule at a place is an allow rule that is off under the query's word.
fn is_off(image: &[u8], at: usize, allow: bool, q: Query) -> bool
    requires { RuleHere image.now at × (allow ≡ allow_at image.now at) }
    ensures { result ≡ off_at image.now q.switches at }
{
    if !allow {
        return false;
    }
    !is_on(q.switches, image[at + 10])
}

// Whether the rule at a place is an allow rule of another class than the query's.
fn is_of_other_class(image: &[u8], at: usize, allow: bool, q: Query) -> bool
    requires { RuleHere image.now at × (allow ≡ allow_at image.now at) }
    ensures { result ≡ other_class_at image.now at q.class }
{
    if !allow {
        return false;
    }
    word_in(image, at + 6) != usize::from(q.class)
}

// Whether the rule at a place passes no more steps than so many, three or more, since its class is another.
fn is_stopped_by_class(image: &[u8], at: usize, allow: bool, q: Query, most: usize) -> bool
    requires { RuleHere image.now at × (allow ≡ allow_at image.now at) }
    ensures { result ≡ class_stops image.now at q.class most }
{
    if most < 3 {
        return false;
    }
    is_of_other_class(image, at, allow, q)
}

// Whether a rule passes no more steps than so many, since the type in its field at a place is known to stop it: after one step
// where that is its source, after two where it is its destination.
fn is_known_to_stop(image: &[u8], at: usize, side: &Side, passed: usize, most: usize) -> bool
    requires { Accepted image.now × TypeAt image.now at }
    ensures { result ≡ stops_at image.now at side.now.marks.now side.now.kept passed most }
{
    if most < passed {
        return false;
    }
    // a group's number is the low byte
    if 127 < image[at] {
        return matches!(side.kept[usize::from(image[at + 1])], Kept::No);
    }
    !side.marks[word_in(image, at)]
}

impl Policy<'_> {
    // How many steps the rule at a place passes, which is on and passes its source.
    fn steps_past_source(self, at: usize, q: Query, dest: &mut Side) -> usize
        requires { On self.image.now q.switches at × SideOf self.image.now q.dest dest.old
            × SourceIn self.image.now q at }
        ensures { Leaves (short_steps (request_in self.entry.image.now q) (rule_in self.entry.image.now q.switches at))
            (SideOf self.entry.image.now q.dest dest.new) result }
    {
        if !self.inside(at + 4, q.dest, dest) {
            return 2;
        }
        if is_of_other_class(self.image, at, is_allow(self.image, at), q) {
            return 3;
        }
        4
    }

    // How many steps the rule at a place passes, which is on. What is known of its source costs no call.
    fn steps_on(self, at: usize, q: Query, source: &mut Side, dest: &mut Side) -> usize
        requires { On self.image.now q.switches at
            × Sides self.image.now q source.old dest.old }
        ensures { Leaves (short_steps (request_in self.entry.image.now q) (rule_in self.entry.image.now q.switches at))
            (Sides self.entry.image.now q source.new dest.new) result }
    {
        let t = word_in(self.image, at + 2);
        if t < 32768 {
            if !self.inside(at + 2, q.source, source) {
                return 1;
            }
            return self.steps_past_source(at, q, dest);
        }
        let g = t - 32768;
        if source.kept[g] == Kept::Yes {
            return self.steps_past_source(at, q, dest);
        }
        if !find_inside(self.image, self.groups, g, q.source, source) {
            return 1;
        }
        self.steps_past_source(at, q, dest)
    }

    // How many steps the rule at a place passes, where they are more than so many; else a number that is no more either, so that
    // a type is walked only where it may tell. Each test but the last tells that the rule passes no more; the order is that of
    // their cost.
    pub(crate) fn steps_at(
        self,
        at: usize,
        allow: bool,
        q: Query,
        source: &mut Side,
        dest: &mut Side,
        most: usize,
    ) -> usize
        requires { RuleHere self.image.now at × (allow ≡ allow_at self.image.now at)
            × Sides self.image.now q source.old dest.old }
        ensures { Counts most
            (short_steps (request_in self.entry.image.now q) (rule_in self.entry.image.now q.switches at)) result
            × Sides self.entry.image.now q source.new dest.new }
    {
        if is_stopped_by_class(self.image, at, allow, q, most) {
            return 0;
        }
        if is_known_to_stop(self.image, at + 2, source, 1, most) {
            return 0;
        }
        if is_off(self.image, at, allow, q) {
            return 0;
        }
        if is_known_to_stop(self.image, at + 4, dest, 2, most) {
            return 0;
        }
        self.steps_on(at, q, source, dest)
    }
}
