// Sets as 1,024 marks, and the members of a part of the image against them.
ghost use Rattle.std.specs.Prelude.{◌≡◌, ◌+◌, ◌*◌, ◌≤◌, length};
ghost use Rattle.decide.specs.Inner.Marks.{mark_all, any_is, fully_marked, both_below};
ghost use Rattle.format.specs.Inner.Places.{words_at, Rising};

use crate::word::{pairs, word, word_in};

// Marks the members of a part.
pub(crate) fn mark(image: &[u8], from: usize, count: usize, marks: &mut [bool; 1024])
    requires { (from + 2 * count ≤ length image.now) × Rising 0 (words_at image.now count from) }
    ensures { marks.new ≡ mark_all marks.old (words_at image.now count from) }
{
    for member in pairs(image, from, count) {
        marks[word(member)] = true;
    }
}

// Whether a member of a part has a mark of a value.
pub(crate) fn any_is(
    image: &[u8],
    from: usize,
    count: usize,
    marks: &[bool; 1024],
    value: bool,
) -> bool
    requires { (from + 2 * count ≤ length image.now) × Rising 0 (words_at image.now count from) }
    ensures { result ≡ any_is marks.now value (words_at image.now count from) }
{
    // by places: a loop over `pairs` takes a sixth longer where rosters, companions and separations ask for members
    let mut at = from;
    let mut left = count;
    while 0 < left {
        if marks[word_in(image, at)] == value {
            return true;
        }
        at += 2;
        left -= 1;
    }
    false
}

// Whether so many members of a part are marked: where that is the number of marks, all marks are among the members. It walks
// to the end, as a way out before it costs more than it saves.
pub(crate) fn fully_marked(
    image: &[u8],
    from: usize,
    count: usize,
    marks: &[bool; 1024],
    size: usize,
) -> bool
    requires { (from + 2 * count ≤ length image.now) × Rising 0 (words_at image.now count from) }
    ensures { result ≡ fully_marked marks.now size (words_at image.now count from) }
{
    let mut hits = 0;
    for member in pairs(image, from, count) {
        if marks[word(member)] {
            hits += 1;
        }
    }
    hits == size
}

// Whether a number is marked in both. It reads all marks of both, so that several are looked at at once.
pub(crate) fn any_both(a: &[bool; 1024], b: &[bool; 1024]) -> bool
    ensures { result ≡ both_below a.now b.now 1024 }
{
    let mut found = false;
    for (x, y) in a.iter().zip(b) {
        found |= *x & *y;
    }
    found
}
