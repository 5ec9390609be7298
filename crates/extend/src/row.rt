// The record of a row.
ghost use Rattle.std.specs.Prelude.{◌≡◌, ◌≢◌, true, ◌++◌, ◌+◌, ◌≤◌, ◌<◌, length, take, slice_index, MatchBool};
ghost use Rattle.text.specs.Rows.{field_bytes};
ghost use Rattle.extend.specs.Inner.Filled.{is_short, Fills, Records};

use crate::form::{Kind, is_short};
use crate::spell::{kind_of, value, word_size};
use crate::word::put_word;
use text::Field;

// The length of a row's record, and the place past the row.
#[derive(Clone, Copy)]
pub(crate) struct Row {
    pub length: usize,
    pub end: usize,
}

// The longest record: a group of 64 members, two bytes each, behind its length and its kind.
pub(crate) const LONGEST: usize = 130;

// A word's number goes to a place of the record, in the bytes of its field; the answer is the place past them.
fn put(part: &mut [u8], at: usize, field: Field, n: usize) -> usize
    requires { (at + 2 ≤ length part.old) × (n < 65536) × (is_short field ≡ true → n < 256) }
    ensures { (take result part.new ≡ take at part.old ++ field_bytes field n)
        × (result ≡ at + length (field_bytes field n)) }
{
    if is_short(field) {
        part[at] = n as u8;
        return at + 1;
    }
    put_word(part, at, n);
    at + 2
}

// Whether a word that ends at a place is the last of its row.
fn ends_row(text: &[u8], end: usize) -> bool
    requires { end ≤ length text.now }
    ensures { MatchBool result
        (end < length text.now → slice_index text.now end ≡ 10)
        ((end < length text.now) × (slice_index text.now end ≢ 10)) }
{
    end == text.len() || text[end] == b'\n'
}

// The bytes of the words from a place of the text on, up to the row's end, go into the record, past its length and its
// kind.
fn fill(text: &[u8], from: usize, kind: Kind, part: &mut [u8; LONGEST]) -> Option<Row>
    requires { from ≤ length text.now }
    ensures { Fills kind text.now from result part.new }
{
    let mut start = from;
    let mut at = 2;
    for (i, field) in kind.fields().iter().enumerate() {
        let word = value(*field, &text[start..])?;
        at = put(part, at, *field, word.number);
        let end = start + word.size;
        if ends_row(text, end) {
            if i + 1 < kind.fewest() {
                return None;
            }
            return Some(Row { length: at, end });
        }
        start = end + 1;
    }
    None
}

// The record of the row that starts at a place of the text, at the front of a buffer for it.
pub(crate) fn record_at(text: &[u8], at: usize, part: &mut [u8; LONGEST]) -> Option<Row>
    requires { at ≤ length text.now }
    ensures { Records text.now at result part.new }
{
    let end = at + word_size(&text[at..]);
    let kind = kind_of(&text[at..end])?;
    if ends_row(text, end) {
        return None;
    }
    let row = fill(text, end + 1, kind, part)?;
    part[0] = row.length as u8;
    part[1] = kind as u8;
    Some(row)
}
