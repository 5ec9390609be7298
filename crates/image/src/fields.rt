// The fields of a record, by its kind: each function takes a record's own bytes, of a length of its kind.
ghost use Rattle.std.specs.Prelude.{◌≡◌, true, ◌&&◌, ◌+◌, ◌≤◌, ◌<◌, ◌%◌, nat_lt, length, drop, fold};
ghost use Rattle.std.specs.List.{zip};
ghost use Rattle.std.specs.Int.{w16, from_be_bytes};
ghost use Rattle.format.specs.Bytes.{word_at, words};
ghost use Rattle.format.specs.Format.{is_type, bad_type, bad_group, bad_allow, bad_transition, bad_constraint};
ghost use Rattle.format.specs.Check.{read_fields};

use crate::kind::{is_condition, is_type, list_ok};
use crate::word::word_in;
use format::Misread;

// Whether each number is below the one that stands at its place in another list. None ends the walk, so that many are
// compared at a time: on 64 members less than half the time that `is_sorted_by` takes, on few some nanoseconds more. One function
// for this and `all_same` would take the comparison as a closure, and say less.
fn all_below(numbers: &[[u8; 2]], others: &[[u8; 2]]) -> bool
    ensures { result ≡ fold (λ below p. below && nat_lt (from_be_bytes w16 p.0) (from_be_bytes w16 p.1)) true
        (zip numbers.now others.now) }
{
    numbers
        .iter()
        .zip(others)
        .fold(true, |below, (number, other)| {
            below & (u16::from_be_bytes(*number) < u16::from_be_bytes(*other))
        })
}

// Fewer members than these are compared one after the other, which is faster there than many at a time.
const MANY: usize = 20;

// Whether members rise strictly and each is a basic type: where they rise, only the last is compared with 1,024. A false
// tells nothing.
fn rises(part: &[u8]) -> bool
    requires { (4 ≤ length part.now) × (length part.now % 2 ≡ 0) }
    ensures { result ≡ true → bad_group part.now ≡ None }
{
    if 1024 <= word_in(part, part.len() - 2) {
        return false;
    }
    let (members, _) = part[2..].as_chunks::<2>();
    if MANY <= members.len() {
        return all_below(members, &members[1..]);
    }
    let mut last = u16::from_be_bytes(members[0]);
    for member in &members[1..] {
        let next = u16::from_be_bytes(*member);
        if next <= last {
            return false;
        }
        last = next;
    }
    true
}

// Members rise strictly, and each is a basic type.
pub(crate) fn group_fields(part: &[u8]) -> Result<usize, Misread>
    requires { (4 ≤ length part.now) × (length part.now % 2 ≡ 0) }
    ensures { result ≡ read_fields (bad_group part.now) (length part.now) }
{
    if rises(part) {
        return Ok(part.len());
    }
    first_member(part)
}

// The first member that does not rise or is no basic type, where there is one.
fn first_member(part: &[u8]) -> Result<usize, Misread>
    requires { 2 ≤ length part.now }
    ensures { result ≡ read_fields (bad_group part.now) (length part.now) }
{
    let (members, _) = part[2..].as_chunks::<2>();
    let mut low = 0;
    for (i, member) in members.iter().enumerate() {
        let at = 2 + 2 * i;
        let member = u16::from_be_bytes(*member);
        if member < low {
            return Err(Misread::BadField(at));
        }
        if 1024 <= member {
            return Err(Misread::BadField(at));
        }
        low = member + 1;
    }
    Ok(part.len())
}

// Whether the field at a place is a type field.
fn type_at(part: &[u8], groups: usize, at: usize) -> bool
    requires { at + 1 < length part.now }
    ensures { result ≡ is_type groups (word_at part.now at) }
{
    is_type(groups, word_in(part, at))
}

// Types from a place on, to the record's end.
fn type_list(part: &[u8], groups: usize, from: usize) -> Result<usize, Misread>
    requires { from ≤ length part.now }
    ensures { result ≡ read_fields (bad_type groups from (words (drop from part.now))) (length part.now) }
{
    let (types, _) = part[from..].as_chunks::<2>();
    for (i, field) in types.iter().enumerate() {
        let at = from + 2 * i;
        if !is_type(groups, usize::from(u16::from_be_bytes(*field))) {
            return Err(Misread::BadField(at));
        }
    }
    Ok(part.len())
}

pub(crate) fn allow_fields(part: &[u8], groups: usize) -> Result<usize, Misread>
    requires { 11 ≤ length part.now }
    ensures { result ≡ read_fields (bad_allow groups part.now) (length part.now) }
{
    if !type_at(part, groups, 2) {
        return Err(Misread::BadField(2));
    }
    if !type_at(part, groups, 4) {
        return Err(Misread::BadField(4));
    }
    if !is_condition(part[10]) {
        return Err(Misread::BadField(10));
    }
    Ok(part.len())
}

pub(crate) fn transition_fields(part: &[u8], groups: usize) -> Result<usize, Misread>
    requires { 8 ≤ length part.now }
    ensures { result ≡ read_fields (bad_transition groups part.now) (length part.now) }
{
    if !type_at(part, groups, 2) {
        return Err(Misread::BadField(2));
    }
    if !type_at(part, groups, 4) {
        return Err(Misread::BadField(4));
    }
    Ok(part.len())
}

pub(crate) fn constraint_fields(part: &[u8], groups: usize) -> Result<usize, Misread>
    requires { 11 ≤ length part.now }
    ensures { result ≡ read_fields (bad_constraint groups part.now) (length part.now) }
{
    if !type_at(part, groups, 6) {
        return Err(Misread::BadField(6));
    }
    if !type_at(part, groups, 8) {
        return Err(Misread::BadField(8));
    }
    if !list_ok(part[10], (part.len() - 11) / 2) {
        return Err(Misread::BadField(10));
    }
    type_list(part, groups, 11)
}
