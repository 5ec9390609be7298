// A test of the type in a field, with what is found of a group kept, so that a group is walked once and not once a rule.
ghost use Rattle.std.specs.Prelude.{◌≡◌, ◌+◌, ◌<◌, set};
ghost use Rattle.format.specs.declared.Section.TheVariants.{Groups};
ghost use Rattle.format.specs.Format.{count_of};
ghost use Rattle.decision.specs.Sets.{within};
ghost use Rattle.decide.specs.Inner.Parts.{Known, TypeAt, set_in, set_at, group_set};
ghost use Rattle.decide.specs.Inner.Marks.{Basic, any_is, any_marked};
ghost use Rattle.decide.specs.Inner.Kept.{said, KeptTest, SideOf, Leaves, outside_in, keep_outside};

use crate::marks::{any_is, fully_marked};
use crate::policy::Policy;
use crate::types::group_span;
use crate::within::is_within;
use crate::word::word_in;

// What is kept of a group: whether it passes a test, where that was asked. It is one byte; an Option is two, and tables of them, which
// each query clears, made a decision on the sample a tenth longer (`Verdict`).
#[derive(Clone, Copy, PartialEq, Eq, Debug)]
pub(crate) enum Kept {
    Unasked,
    No,
    Yes,
}

// One side of a query, its source or its destination: the basic types of its type, as marks, how many they are, and what is kept
// of the groups that they are within.
#[derive(Drop)]
pub(crate) struct Side<'a> {
    pub marks: &'a [bool; 1024],
    pub size: usize,
    pub kept: [Kept; 256],
}

impl Side<'_> {
    // Whether a type is known not to hold this side: a basic type without a mark, or a group of which that is kept.
    pub(crate) fn known_outside(&self, t: usize) -> bool
        requires { Basic t × (t < 33024) }
        ensures { result ≡ outside_in self.now.marks.now self.now.kept t }
    {
        if t < 32768 {
            return !self.marks[t];
        }
        matches!(self.kept[t - 32768], Kept::No)
    }

    // Keeps, where a type is a group, that it does not hold this side.
    pub(crate) fn keep_outside(&mut self, t: usize)
        requires { t < 33024 }
        ensures { self.new ≡ record self.old { kept = keep_outside self.old.kept t } }
    {
        if t < 32768 {
            return;
        }
        self.kept[t - 32768] = Kept::No;
    }
}

// Keeps what was found of a group, and answers it.
fn keep(kept: &mut [Kept; 256], g: usize, found: bool) -> bool
    requires { g < 256 }
    ensures { (result ≡ found) × (kept.new ≡ set kept.old g (said found)) }
{
    kept[g] = if found { Kept::Yes } else { Kept::No };
    found
}

// Whether a side, of a type, is within a group, of which nothing is kept yet. It is no method of the policy, nor is what it
// calls, as it is the one call of the walks over the rules: where it got the whole policy, decisions took up to 17 % longer.
pub(crate) fn find_inside(
    image: &[u8],
    groups: &[u16; 256],
    g: usize,
    t: u16,
    side: &mut Side,
) -> bool
    requires { Known image.now groups.now × (g < count_of image.now Groups) × SideOf image.now t side.old }
    ensures { Leaves (within (set_in image.now t) (group_set image.now g)) (SideOf image.now t side.new) result }
{
    let s = group_span(image, groups, g);
    let found = is_within(image, groups, s, t, side);
    keep(&mut side.kept, g, found)
}

impl Policy<'_> {
    // Whether a side, of a type, is within the type in the field at a place.
    pub(crate) fn inside(self, at: usize, t: u16, side: &mut Side) -> bool
        requires { TypeAt self.image.now at × SideOf self.image.now t side.old }
        ensures { Leaves (within (set_in self.entry.image.now t) (set_at self.entry.image.now at))
            (SideOf self.entry.image.now t side.new) result }
    {
        let outer = word_in(self.image, at);
        if outer < 32768 {
            return fully_marked(self.image, at, 1, side.marks, side.size);
        }
        let g = outer - 32768;
        let k = side.kept[g];
        // compared, and so in `meets`: with a match of the three, decisions on separations took up to 24 % longer
        if k != Kept::Unasked {
            return k == Kept::Yes;
        }
        find_inside(self.image, self.groups, g, t, side)
    }

    // Whether the type in the field at a place has a member with a mark of a value.
    pub(crate) fn meets(
        self,
        at: usize,
        marks: &[bool; 1024],
        value: bool,
        kept: &mut [Kept; 256],
    ) -> bool
        requires { TypeAt self.image.now at
            × KeptTest (any_is marks.now value) self.image.now kept.old }
        ensures { Leaves (any_is marks.now value (set_at self.entry.image.now at))
            (KeptTest (any_is marks.now value) self.entry.image.now kept.new) result }
    {
        let t = word_in(self.image, at);
        if t < 32768 {
            return any_is(self.image, at, 1, marks, value);
        }
        let g = t - 32768;
        let k = kept[g];
        if k != Kept::Unasked {
            return k == Kept::Yes;
        }
        let s = group_span(self.image, self.groups, g);
        let found = any_is(self.image, s.from, s.count, marks, value);
        keep(kept, g, found)
    }

    // Finds and keeps, of the destination of a live rule at a place, where it is a group of which nothing is kept yet, whether it
    // meets the one marks, and the other. It is walked once for both, and to the end, as most groups miss one of them.
    pub(crate) fn meet_each(
        self,
        at: usize,
        live: bool,
        first: &[bool; 1024],
        second: &[bool; 1024],
        kf: &mut [Kept; 256],
        ks: &mut [Kept; 256],
    )
        requires { TypeAt self.image.now (at + 4)
            × KeptTest (any_marked first.now) self.image.now kf.old
            × KeptTest (any_marked second.now) self.image.now ks.old }
        ensures { KeptTest (any_marked first.now) self.entry.image.now kf.new
            × KeptTest (any_marked second.now) self.entry.image.now ks.new }
    {
        if !live {
            return;
        }
        let t = word_in(self.image, at + 4);
        if t < 32768 {
            return;
        }
        let g = t - 32768;
        if kf[g] != Kept::Unasked {
            return;
        }
        let s = group_span(self.image, self.groups, g);
        // by places, as in `any_is`, which a loop over pairs makes slower
        let mut m = s.from;
        let mut left = s.count;
        let mut a = false;
        let mut b = false;
        while 0 < left {
            let x = word_in(self.image, m);
            if first[x] {
                a = true;
            }
            if second[x] {
                b = true;
            }
            m += 2;
            left -= 1;
        }
        keep(kf, g, a);
        keep(ks, g, b);
    }
}
