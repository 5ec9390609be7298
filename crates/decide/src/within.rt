// Whether a type of the query is within the members of a group.
ghost use Rattle.std.specs.Prelude.{◌≡◌};
ghost use Rattle.format.specs.Inner.Places.{words_at};
ghost use Rattle.decision.specs.Sets.{within};
ghost use Rattle.decide.specs.Inner.Parts.{Known, Part, set_in};
ghost use Rattle.decide.specs.Inner.Kept.{SideOf};

use crate::halves::is_among;
use crate::kept::Side;
use crate::marks::fully_marked;
use crate::types::{Span, group_span};
use crate::word::word_in;

// Whether a side, of a type, is within a part. A basic type is looked for. Of a group the ends are compared first, and then its
// marks are counted. It is no method, since `find_inside` (kept.rt) is none.
pub(crate) fn is_within(image: &[u8], groups: &[u16; 256], outer: Span, t: u16, side: &Side) -> bool
    requires { Known image.now groups.now × Part image.now outer.from outer.count × SideOf image.now t side.now }
    ensures { result ≡ within (set_in image.now t) (words_at image.now outer.count outer.from) }
{
    let inner = usize::from(t);
    if inner < 32768 {
        return is_among(image, outer.from, outer.count, inner);
    }
    let span = group_span(image, groups, inner - 32768);
    if word_in(image, span.from) < word_in(image, outer.from) {
        return false;
    }
    let last = outer.from + 2 * (outer.count - 1);
    if word_in(image, last) < word_in(image, span.from + 2 * (span.count - 1)) {
        return false;
    }
    fully_marked(image, outer.from, outer.count, side.marks, side.size)
}
