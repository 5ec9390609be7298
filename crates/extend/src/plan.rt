// Where a record goes, or why it does not: decided before a byte is written.
ghost use Rattle.std.specs.Prelude.{◌≡◌, true, ◌≤◌, length, get_or};
ghost use Rattle.format.specs.Format.{count_place, limit_of, kind_in};
ghost use Rattle.format.specs.Policy.{policy_of};
ghost use Rattle.format.specs.Twins.{listed};
ghost use Rattle.format.specs.Check.{image_in, check_front, Accepted};
ghost use Rattle.format.specs.Answers.{outcome, starts};
ghost use Rattle.extension.specs.Add.{added_twin, own_fault, add_fault};
ghost use Rattle.extend.specs.Inner.Plans.{slot_at, slot_of};

use format::{Cause, Misread, Refusal, Section, Starts, header};
use image::{same_record, word_at};

// The place that a record goes to, the image's size, and the record's section with its count.
#[derive(Clone, Copy)]
pub(crate) struct Slot {
    pub at: usize,
    pub size: usize,
    pub section: Section,
    pub count: usize,
}

// The place of a section's count.
pub(crate) fn count_place(section: Section) -> usize
    ensures { (result ≡ count_place section) × (result ≤ 7) }
{
    match section {
        Section::Groups => header::GROUPS_AT,
        Section::Rules => header::RULES_AT,
        Section::Constraints => header::CONSTRAINTS_AT,
    }
}

fn limit_of(section: Section) -> usize
    ensures { result ≡ limit_of section }
{
    match section {
        Section::Groups => header::MOST_GROUPS,
        Section::Rules => header::MOST_RULES,
        Section::Constraints => header::MOST_CONSTRAINTS,
    }
}

// Whether an accepted image has a group with this record: from group to group. (k is the group's number, for the proof.)
fn is_listed(image: &[u8], part: &[u8]) -> bool
    requires { Accepted image.now }
    ensures { result ≡ listed part.now (policy_of image.now).groups }
{
    let count = word_at(image, header::GROUPS_AT);
    let mut rest = &image[header::SIZE..];
    for k in 0..count {
        let (group, next) = rest.split_at(usize::from(rest[0]));
        if same_record(part, group) {
            return true;
        }
        rest = next;
    }
    false
}

// Whether a record of a section would be a twin.
fn is_twin(buffer: &[u8], part: &[u8], section: Section) -> bool
    requires { check_front buffer.now ≡ None }
    ensures { result ≡ added_twin section (policy_of (image_in buffer.now)) part.now }
{
    match section {
        Section::Groups => is_listed(image::leading(buffer), part),
        Section::Rules => false,
        Section::Constraints => false,
    }
}

// A whole record of a section that ends at a place of an accepted image: refusals 11, 20, 12 and 13, and 10 for its length.
fn room(buffer: &[u8], part: &[u8], section: Section, at: usize) -> Result<Slot, Refusal>
    requires { (check_front buffer.now ≡ None) × (get_or part.now 0 0 ≡ length part.now) × (kind_in section (get_or part.now 1 0) ≡ true) }
    ensures { result ≡ outcome (own_fault buffer.now part.now) (slot_at buffer.now section at) }
{
    match image::read_record(part, section, word_at(buffer, header::GROUPS_AT)) {
        Err(Misread::Malformed) => Err(Cause::AddedRecord.at(0)),
        Err(Misread::BadField(i)) => Err(Cause::AddedField.at(i)),
        Ok(_) => {
            if is_twin(buffer, part, section) {
                return Err(Cause::AddedTwin.at(0));
            }
            let count = word_at(buffer, count_place(section));
            if limit_of(section) <= count {
                return Err(Cause::SectionFull.at(0));
            }
            let size = word_at(buffer, header::LENGTH_AT);
            if buffer.len() - size < part.len() {
                return Err(Cause::ShortBuffer.at(0));
            }
            Ok(Slot {
                at,
                size,
                section,
                count,
            })
        }
    }
}

// The call's own causes, for a buffer whose image is accepted and whose sections start at given places.
pub(crate) fn own_causes(buffer: &[u8], part: &[u8], sections: Starts) -> Result<Slot, Refusal>
    requires { (check_front buffer.now ≡ None) × (sections ≡ starts (image_in buffer.now)) }
    ensures { result ≡ outcome (own_fault buffer.now part.now) (slot_of buffer.now part.now) }
{
    let [length, kind, ..] = part else {
        return Err(Cause::AddedRecord.at(0));
    };
    if usize::from(*length) != part.len() {
        return Err(Cause::AddedRecord.at(0));
    }
    // a kind is a number in the record, matched by ranges as document 01 names it
    match *kind {
        1 => room(buffer, part, Section::Groups, sections.rules),
        2..=3 => room(buffer, part, Section::Rules, sections.constraints),
        4 => room(
            buffer,
            part,
            Section::Constraints,
            word_at(buffer, header::LENGTH_AT),
        ),
        _ => Err(Cause::AddedRecord.at(0)),
    }
}

pub(crate) fn planned(buffer: &[u8], part: &[u8]) -> Result<Slot, Refusal>
    ensures { result ≡ outcome (add_fault buffer.now part.now) (slot_of buffer.now part.now) }
{
    let sections = image::front(buffer)?;
    own_causes(buffer, part, sections)
}
