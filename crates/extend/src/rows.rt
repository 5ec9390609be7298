// The rows of a text, one after the other, into an image that is known to be accepted: it is not checked again.
ghost use Rattle.std.specs.Prelude.{◌≡◌, ◌+◌, ◌≤◌, ◌<◌, length};
ghost use Rattle.format.specs.Check.{image_in, check_front};
ghost use Rattle.format.specs.Answers.{starts};
ghost use Rattle.format.specs.Sample.{empty};
ghost use Rattle.extension.specs.Add.{overwrite};
ghost use Rattle.extend.specs.Inner.Grow.{moved_starts, Grows, AddsEach};

use crate::plan::own_causes;
use crate::row::{LONGEST, record_at};
use crate::splice::insert;
use format::{Cause, Refusal, Section, Starts, header};
use image::word_at;

// The sections' places with one record more of a section.
fn moved(sections: Starts, section: Section, by: usize) -> Starts
    requires { (sections.rules + by < 131072) × (sections.constraints + by < 131072) }
    ensures { result ≡ moved_starts sections section by }
{
    match section {
        Section::Groups => Starts {
            rules: sections.rules + by,
            constraints: sections.constraints + by,
        },
        Section::Rules => Starts {
            constraints: sections.constraints + by,
            ..sections
        },
        Section::Constraints => sections,
    }
}

// Adds the record of the row at a place, and answers the sections' places after it.
fn grow(buffer: &mut [u8], part: &[u8], at: usize, sections: Starts) -> Result<Starts, Refusal>
    requires { (check_front buffer.old ≡ None) × (sections ≡ starts (image_in buffer.old)) }
    ensures { Grows at buffer.old part.now result buffer.new }
{
    match own_causes(buffer, part, sections) {
        Err(f) => Err(Refusal {
            number: f.number,
            place: at,
        }),
        Ok(slot) => {
            let by = part.len();
            insert(buffer, part, slot);
            Ok(moved(sections, slot.section, by))
        }
    }
}

// The empty policy goes to the front of a buffer.
pub(crate) fn put_empty(buffer: &mut [u8])
    requires { 9 ≤ length buffer.old }
    ensures { buffer.new ≡ overwrite empty buffer.old }
{
    buffer[..header::SIZE].copy_from_slice(&[1, 0, 9, 0, 0, 0, 0, 0, 0]);
}

// Adds the records of all rows, up to the first that is refused. A line feed is met where a row is empty, and behind a
// row. The loop goes from place to place, since where a row ends is known once its words are read.
pub(crate) fn add_each(text: &[u8], buffer: &mut [u8], sections: Starts) -> Result<usize, Refusal>
    requires { (check_front buffer.old ≡ None) × (sections ≡ starts (image_in buffer.old)) }
    ensures { AddsEach text.now buffer.old result buffer.new }
{
    let mut part = [0u8; LONGEST];
    let mut at: usize = 0;
    let mut starts = sections;
    while at < text.len() {
        if text[at] == b'\n' {
            at += 1;
            continue;
        }
        let Some(row) = record_at(text, at, &mut part) else {
            return Err(Cause::Row.at(at));
        };
        starts = grow(buffer, &part[..row.length], at, starts)?;
        at = row.end;
    }
    Ok(word_at(buffer, header::LENGTH_AT))
}
