// Adding to the image that a lent buffer starts with: a record, and the rows of a text.
#![tactic(auto)]

mod word; // word.rt: numbers in bytes
mod plan; // plan.rt: where a record goes, or why it does not
mod splice; // splice.rt: a record put into an image
mod spell; // spell.rt: what a word of a row says
mod form; // form.rt: the forms of rows
mod row; // row.rt: the record of a row
mod rows; // rows.rt: the rows of a text, one after the other

ghost use Rattle.extension.specs.Add.{Adds};
ghost use Rattle.text.specs.Build.{Builds, AddsRows};

use format::{Cause, Refusal, Starts, header};
use plan::planned;
use rows::{add_each, put_empty};
use splice::insert;

// One more record at the end of its section: later sections move up, the length field and the section's count grow,
// bytes past the new image stay, and the answer is the record's number. A refused call changes no byte.
pub fn add(buffer: &mut [u8], part: &[u8]) -> Result<usize, Refusal>
    ensures { Adds buffer.old part.now result buffer.new }
{
    let slot = planned(buffer, part)?;
    insert(buffer, part, slot);
    Ok(slot.count)
}

// Builds the image of a text at the front of a buffer: the answer is the image's length, and bytes past it stay. A text
// that is refused leaves the image of the rows before the refused one; a buffer under 9 bytes is left as it was.
pub fn build(text: &[u8], buffer: &mut [u8]) -> Result<usize, Refusal>
    ensures { Builds text.now buffer.old result buffer.new }
{
    if buffer.len() < header::SIZE {
        return Err(Cause::ShortBuffer.at(0));
    }
    put_empty(buffer);
    add_each(
        text,
        buffer,
        Starts {
            rules: header::SIZE,
            constraints: header::SIZE,
        },
    )
}

// Adds the rows of a text to the image that a buffer starts with, as `build` does to the empty policy: the answer is the
// new image's length. An image that is refused is left as it was, with its own refusal.
pub fn add_rows(text: &[u8], buffer: &mut [u8]) -> Result<usize, Refusal>
    ensures { AddsRows text.now buffer.old result buffer.new }
{
    let sections = image::front(buffer)?;
    add_each(text, buffer, sections)
}
