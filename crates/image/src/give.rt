// Record n of a section.
ghost use Rattle.std.specs.Prelude.{◌≡◌, ◌≤◌, length};
ghost use Rattle.format.specs.Format.{count_of};
ghost use Rattle.format.specs.Policy.{place_after};
ghost use Rattle.format.specs.Answers.{outcome, extent};
ghost use Rattle.format.specs.Give.{give_fault, Given};
ghost use Rattle.image.specs.Inner.Walk.{start_in, Hops};

use crate::checker::layout;
use crate::word::word_in;
use format::{Cause, Extent, Refusal, Section, Starts, header};

// How many records a section has.
fn count_in(image: &[u8], section: Section) -> usize
    requires { 9 ≤ length image.now }
    ensures { result ≡ count_of image.now section }
{
    match section {
        Section::Groups => word_in(image, header::GROUPS_AT),
        Section::Rules => word_in(image, header::RULES_AT),
        Section::Constraints => word_in(image, header::CONSTRAINTS_AT),
    }
}

// Where a section starts.
fn start_in(starts: Starts, section: Section) -> usize
    ensures { result ≡ start_in starts section }
{
    match section {
        Section::Groups => header::SIZE,
        Section::Rules => starts.rules,
        Section::Constraints => starts.constraints,
    }
}

// The place past so many records, from a place on: from each length byte to the next. With the place goes the part of the image
// that starts there.
fn place_after(image: &[u8], from: u16, count: usize) -> u16
    requires { Hops image.now from count }
    ensures { result ≡ place_after image.now from count }
{
    let mut at = from;
    let mut part = &image[usize::from(from)..];
    for _ in 0..count {
        let length = part[0];
        part = &part[usize::from(length)..];
        at += u16::from(length);
    }
    at
}

// Where record n of a section stands; else the refusal, 1 to 7 and then 14.
pub fn find(image: &[u8], section: Section, n: usize) -> Result<Extent, Refusal>
    ensures { result ≡ outcome (give_fault image.now section n) (extent image.now section n) }
{
    let starts = layout(image)?;
    if count_in(image, section) <= n {
        return Err(Cause::NoSuchRecord.at(0));
    }
    let start = start_in(starts, section) as u16;
    let place = usize::from(place_after(image, start, n));
    Ok(Extent {
        place,
        length: usize::from(image[place]),
    })
}

// Record n of a section: its own bytes, a part of the image. On a refusal, which `find` tells, the part is empty.
pub fn record(image: &[u8], section: Section, n: usize) -> &[u8]
    ensures { Given image.entry result section n }
{
    match find(image, section, n) {
        Ok(extent) => {
            let from = extent.place;
            let to = from + extent.length;
            &image[from..to]
        }
        Err(_) => &image[..0],
    }
}
