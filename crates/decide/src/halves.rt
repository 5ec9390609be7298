// Whether a part whose members rise has a number among them: by halves.
ghost use Rattle.std.specs.Prelude.{◌≡◌, cond, leb, ◌+◌, ◌*◌, ◌<◌, length};
ghost use Rattle.format.specs.Bytes.{word_at};
ghost use Rattle.format.specs.Inner.Places.{words_at};
ghost use Rattle.decision.specs.Sets.{is_in};
ghost use Rattle.decide.specs.Inner.Parts.{Part};

use crate::word::word_in;

// Where to look on, past so many members or at the place itself: a number is not among those before a member that it comes up
// to.
fn half(image: &[u8], at: usize, many: usize, x: usize) -> usize
    requires { at + 2 * many + 1 < length image.now }
    ensures { result ≡ cond (leb (word_at image.now (at + 2 * many)) x) (at + 2 * many) at }
{
    let middle = at + 2 * many;
    if word_in(image, middle) <= x {
        return middle;
    }
    at
}

// Whether a number is among the members of a part. The library's `binary_search` asks that a
// list of pairs is sorted by the pairs' own order, of which the members' order would have to be shown to be that.
pub(crate) fn is_among(image: &[u8], from: usize, count: usize, x: usize) -> bool
    requires { Part image.now from count }
    ensures { result ≡ is_in x (words_at image.now count from) }
{
    let mut at = from;
    let mut left = count;
    while 1 < left {
        let many = left / 2;
        at = half(image, at, many, x);
        left -= many;
    }
    word_in(image, at) == x
}
