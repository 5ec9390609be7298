// The check of an image: one pass over its bytes, and then the twins.
ghost use Rattle.std.specs.Prelude.{◌≡◌, ℕ, ◌+◌, ◌<◌, ◌^◌, set, eqb};
ghost use Rattle.format.specs.Check.{read_fault, header_fault, check};
ghost use Rattle.format.specs.Answers.{outcome, starts};
ghost use Rattle.image.specs.Survey.{Surveys, SurveysOld};
ghost use Rattle.image.specs.Inner.Walk.{walk_of, ends_of, Ahead, Walks, ChecksBody, Checks};

use crate::reader::read_record;
use crate::twins::{check_twins, fill_alike};
use crate::word::{word_at, word_in};
use format::{Cause, Misread, Refusal, Section, Starts, header};

// The place of the first record, behind the header.
const FIRST: u16 = header::SIZE as u16;

// A place goes into slot k of a table, where it has that slot. (What a slice ends as, `get_mut` does not say.)
fn note(places: &mut [u16], k: usize, at: u16)
    ensures { places.new ≡ set places.old k at }
{
    if k < places.len() {
        places[k] = at;
    }
}

// The refusal of the record at a place that cannot be read: 5, or 6 at its field.
fn misread(error: Misread, at: usize) -> Refusal
    requires { (i : ℕ) → error ≡ Misread.BadField i → at + i < 2 ^ 64 }
    ensures { read_fault at (Err error) ≡ Some result }
{
    match error {
        Misread::Malformed => Cause::Record.at(at),
        Misread::BadField(i) => Cause::Field.at(at + i),
    }
}

// The records of a section, so many of them from a place on, in an image with so many groups: the place past the last, or the
// first refusal. The place of each record that the walk comes to is noted. With the place goes the part of the image that starts
// there: it is what the record reader is handed. A walk carries its place in 16 bits.
fn walk(
    image: &[u8],
    groups: usize,
    section: Section,
    count: usize,
    from: u16,
    places: &mut [u16],
) -> Result<u16, Refusal>
    requires { Ahead image.now section groups from count }
    ensures { Walks image.now section from count places.old result places.new }
{
    let mut at = from;
    let mut part = &image[usize::from(from)..];
    for k in 0..count {
        note(places, k, at);
        match read_record(part, section, groups) {
            Ok(length) => {
                part = &part[length..];
                at += length as u16;
            }
            Err(error) => return Err(misread(error, usize::from(at))),
        }
    }
    Ok(at)
}

// The same, and no place is noted.
fn walk_on(
    image: &[u8],
    groups: usize,
    section: Section,
    count: usize,
    from: u16,
) -> Result<u16, Refusal>
    requires { Ahead image.now section groups from count }
    ensures { result ≡ walk_of image.now section from count }
{
    walk(image, groups, section, count, from, &mut [])
}

// Refusals 1 to 4.
fn check_header(image: &[u8]) -> Result<(), Refusal>
    ensures { result ≡ outcome (header_fault eqb image.now) tt }
{
    if image.len() < header::SIZE {
        return Err(Cause::ShortImage.at(0));
    }
    if image[0] != 1 {
        return Err(Cause::Version.at(0));
    }
    let size = word_in(image, header::LENGTH_AT);
    if size < header::SIZE {
        return Err(Cause::Length.at(0));
    }
    if size != image.len() {
        return Err(Cause::Length.at(0));
    }
    if header::MOST_GROUPS < word_in(image, header::GROUPS_AT) {
        return Err(Cause::Count.at(header::GROUPS_AT));
    }
    if header::MOST_RULES < word_in(image, header::RULES_AT) {
        return Err(Cause::Count.at(header::RULES_AT));
    }
    if header::MOST_CONSTRAINTS < word_in(image, header::CONSTRAINTS_AT) {
        return Err(Cause::Count.at(header::CONSTRAINTS_AT));
    }
    Ok(())
}

// Refusal 7, for records that end at a place.
fn check_end(image: &[u8], rules: u16, constraints: u16, end: u16) -> Result<Starts, Refusal>
    ensures { result ≡ ends_of image.now rules constraints end }
{
    let place = usize::from(end);
    if place < image.len() {
        return Err(Cause::BytesBehind.at(place));
    }
    Ok(Starts {
        rules: usize::from(rules),
        constraints: usize::from(constraints),
    })
}

// Refusals 5 to 7, and the groups' places.
fn check_body(image: &[u8], places: &mut [u16]) -> Result<Starts, Refusal>
    requires { header_fault eqb image.now ≡ None }
    ensures { ChecksBody image.now places.old result places.new }
{
    let groups = word_in(image, header::GROUPS_AT);
    let rules = word_in(image, header::RULES_AT);
    let constraints = word_in(image, header::CONSTRAINTS_AT);
    let second = walk(image, groups, Section::Groups, groups, FIRST, places)?;
    let third = walk_on(image, groups, Section::Rules, rules, second)?;
    let end = walk_on(image, groups, Section::Constraints, constraints, third)?;
    check_end(image, second, third, end)
}

// Refusals 1 to 7, with a table for as many of the groups' places as it has slots.
fn check_all(image: &[u8], places: &mut [u16]) -> Result<Starts, Refusal>
    ensures { Checks image.now places.old result places.new }
{
    check_header(image)?;
    check_body(image, places)
}

// Where the sections of an accepted image start, else the refusal; and the place of each group that the check comes to.
pub fn survey(image: &[u8], groups: &mut [u16; header::MOST_GROUPS]) -> Result<Starts, Refusal>
    ensures { Surveys image.now groups.old result groups.new }
{
    let starts = check_all(image, groups)?;
    check_twins(image, groups)?;
    Ok(starts)
}

// The same of an image that may have twins; and for each group the first that it is alike to.
pub fn survey_old(
    image: &[u8],
    groups: &mut [u16; header::MOST_GROUPS],
    alike: &mut [u16; header::MOST_GROUPS],
) -> Result<Starts, Refusal>
    ensures { SurveysOld image.now groups.old alike.old result
        groups.new alike.new }
{
    let starts = check_all(image, groups)?;
    let count = word_in(image, header::GROUPS_AT);
    fill_alike(image, groups, count, alike);
    Ok(starts)
}

// The same without the places. One group has no twin, so its place is not noted.
pub fn layout(image: &[u8]) -> Result<Starts, Refusal>
    ensures { result ≡ outcome (check image.now) (starts image.now) }
{
    if word_at(image, header::GROUPS_AT) < 2 {
        return check_all(image, &mut []);
    }
    let mut groups = [0u16; header::MOST_GROUPS];
    survey(image, &mut groups)
}

// Whether an image is accepted, else the refusal.
pub fn check(image: &[u8]) -> Result<(), Refusal>
    ensures { result ≡ outcome (check image.now) tt }
{
    layout(image)?;
    Ok(())
}
