// Kinds, lengths and the fields' single rules.
ghost use Rattle.std.specs.Prelude.{◌≡◌};
ghost use Rattle.format.specs.Format.{is_type, is_condition, kind_in, length_ok, list_ok};

use format::Section;

// Whether a number is a type field, where there are so many groups.
#[tactic(auto, unfolding(format::specs::Format::is_type))]
pub fn is_type(groups: usize, field: usize) -> bool
    ensures { result ≡ is_type groups field }
{
    match field {
        0..=1023 => true,
        1024..=32767 => false,
        _ => field - 32768 < groups,
    }
}

// Off, on, or one of 32 switches.
#[tactic(auto, unfolding(format::specs::Format::is_condition))]
pub(crate) fn is_condition(byte: u8) -> bool
    ensures { result ≡ is_condition byte }
{
    matches!(byte, 0..=33)
}

// Whether a kind is one of the section's.
#[tactic(auto, unfolding(format::specs::Format::kind_in))]
pub(crate) fn kind_in(section: Section, kind: u8) -> bool
    ensures { result ≡ kind_in section kind }
{
    match section {
        Section::Groups => kind == 1,
        Section::Rules => matches!(kind, 2..=3),
        Section::Constraints => kind == 4,
    }
}

// Whether a length is one of the kind's.
#[tactic(auto, unfolding(format::specs::Format::length_ok))]
pub(crate) fn length_ok(kind: u8, length: usize) -> bool
    ensures { result ≡ length_ok kind length }
{
    match (kind, length) {
        (1, 4..=130) => length % 2 == 0,
        (2, 11) => true,
        (3, 8) => true,
        (4, 11..=43) => length % 2 == 1,
        _ => false,
    }
}

// Whether a list of so many types suits a predicate.
#[tactic(auto, unfolding(format::specs::Format::list_ok))]
pub(crate) fn list_ok(predicate: u8, types: usize) -> bool
    ensures { result ≡ list_ok predicate types }
{
    match predicate {
        0..=1 => types == 0,
        2 => 0 < types,
        3 => types == 0,
        _ => false,
    }
}
