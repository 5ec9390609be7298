// A turn: the rows that have come whole are added, and what is left is kept; and the end of the input.
ghost use Rattle.std.specs.Prelude.{◌≡◌, ◌+◌, ◌≤◌, ◌<◌, ◌^◌, length, take};
ghost use Rattle.format.specs.Check.{check_front};
ghost use Rattle.lines.specs.Compiled.{refused_row, cut};
ghost use Rattle.compile.specs.Inner.Turn.{reading_of, Rests, Turned, Ended};

use crate::feeds::{count_feeds, rows_end};
use format::{Cause, Refusal};
use lines::RowRefusal;
use streams::keep_rest;

// There is space for so many bytes of rows.
pub(crate) const SPACE: usize = 65536;

// Where the program is in the text: the place and the number of the row that is being read, and how many of its bytes have
// come.
#[derive(Clone, Copy)]
pub(crate) struct Place {
    pub at: usize,
    pub row: usize,
    pub kept: usize,
}

// The refusal of a row in a part of the text, which starts at a place of it with the row of this number.
fn row_refusal(f: Refusal, part: &[u8], at: usize, row: usize) -> RowRefusal
    requires { (f.place ≤ length part.now) × (at + length part.now < 2 ^ 64) × (row + length part.now < 2 ^ 64) }
    ensures { result ≡ refused_row at row part.now f }
{
    let place = f.place;
    RowRefusal {
        number: f.number,
        place: at + place,
        row: row + count_feeds(&part[..place]),
    }
}

// The turn on the first bytes of the input, those that were kept and those that came, once the whole rows among them have been
// added: what is left is kept, unless it fills the space.
fn go_on(p: Place, input: &mut [u8], end: usize, have: usize) -> Result<Place, RowRefusal>
    requires { (SPACE ≡ length input.old) × (have ≤ SPACE) × (end ≡ cut (take have input.old))
        × (p.at + SPACE < 2 ^ 64) × (p.row + SPACE < 2 ^ 64) }
    ensures { Rests p (take have input.old) result input.new }
{
    let row = p.row + count_feeds(&input[..have]);
    if have - end == SPACE {
        return Err(RowRefusal {
            number: Cause::Row as u8,
            place: p.at + end,
            row,
        });
    }
    keep_rest(input, end, have);
    Ok(Place {
        at: p.at + end,
        row,
        kept: have - end,
    })
}

// A turn on the first bytes of the input: those that were kept, and those that came.
pub(crate) fn take_turn(
    p: Place,
    input: &mut [u8],
    have: usize,
    image: &mut [u8],
) -> Result<Place, RowRefusal>
    requires { (check_front image.old ≡ None) × (SPACE ≡ length input.old) × (have ≤ SPACE)
        × (p.at + SPACE < 2 ^ 64) × (p.row + SPACE < 2 ^ 64) }
    ensures { Turned (reading_of p input.old image.old) (take have input.old)
        result input.new image.new }
{
    let came = &input[..have];
    let end = rows_end(came);
    extend::add_rows(&came[..end], image).map_err(|f| row_refusal(f, came, p.at, p.row))?;
    go_on(p, input, end, have)
}

// The end of the input: what was kept is the last row.
pub(crate) fn end_turns(p: Place, input: &[u8], image: &mut [u8]) -> Result<usize, RowRefusal>
    requires { (check_front image.old ≡ None) × (p.kept ≤ length input.now)
        × (p.at + p.kept < 2 ^ 64) × (p.row + p.kept < 2 ^ 64) }
    ensures { Ended (reading_of p input.now image.old) result image.new }
{
    let kept = p.kept;
    let last = &input[..kept];
    extend::add_rows(last, image).map_err(|f| row_refusal(f, last, p.at, p.row))
}
