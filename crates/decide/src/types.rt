// Where the members of a type lie in the image.
ghost use Rattle.std.specs.Prelude.{◌<◌};
ghost use Rattle.format.specs.declared.Section.TheVariants.{Groups};
ghost use Rattle.format.specs.Format.{count_of};
ghost use Rattle.decide.specs.Inner.Parts.{Known, TypeAt, Spans, group_set, set_at};

use crate::policy::Policy;
use crate::word::word_in;

// A part of the image that holds basic types, so many from a place on. It is no slice, since the fastest walks go by places
// (`any_is`).
#[derive(Clone, Copy)]
pub(crate) struct Span {
    pub from: usize,
    pub count: usize,
}

// The members of a group. It is no method, since `find_inside` (kept.rt) is none.
pub(crate) fn group_span(image: &[u8], groups: &[u16; 256], g: usize) -> Span
    requires { Known image.now groups.now × (g < count_of image.now Groups) }
    ensures { Spans image.now result.from result.count (group_set image.now g) }
{
    let at = usize::from(groups[g]);
    Span {
        from: at + 2,
        count: (usize::from(image[at]) - 2) / 2,
    }
}

impl Policy<'_> {
    // The members of the type in the field at a place: a basic type's field holds it.
    pub(crate) fn members(self, at: usize) -> Span
        requires { TypeAt self.image.now at }
        ensures { Spans self.entry.image.now result.from result.count (set_at self.entry.image.now at) }
    {
        let t = word_in(self.image, at);
        if t < 32768 {
            return Span { from: at, count: 1 };
        }
        group_span(self.image, self.groups, t - 32768)
    }
}
