// The record reader: what stands at the front of a part of an image.
ghost use Rattle.std.specs.Prelude.{◌≡◌};
ghost use Rattle.format.specs.Check.{read_of};

use crate::fields::{allow_fields, constraint_fields, group_fields, transition_fields};
use crate::kind::{kind_in, length_ok};
use format::{Misread, Section};

// The record that a part starts with, for a section of an image with so many groups. The part goes on past the record.
pub fn read_record(part: &[u8], section: Section, groups: usize) -> Result<usize, Misread>
    ensures { result ≡ read_of section groups part.now }
{
    if part.len() < 2 {
        return Err(Misread::Malformed);
    }
    let length = usize::from(part[0]);
    if part.len() < length {
        return Err(Misread::Malformed);
    }
    let kind = part[1];
    if !kind_in(section, kind) {
        return Err(Misread::Malformed);
    }
    if !length_ok(kind, length) {
        return Err(Misread::Malformed);
    }
    let whole = &part[..length];
    // a kind is a number in the image, matched as document 01 names it
    match kind {
        1 => group_fields(whole),
        2 => allow_fields(whole, groups),
        3 => transition_fields(whole, groups),
        _ => constraint_fields(whole, groups),
    }
}
