// The types that the reading layer shares with the layers above it, and the header's numbers. Their meaning is in specs/, and
// the one function here makes a refusal of its cause.
#![tactic(auto)]

pub mod cause; // cause.rt: why a call is refused
pub mod header; // header.rt: the header's places and the limits

pub use cause::Cause;

// One of the three sections of an image.
#[derive(Clone, Copy, Debug, PartialEq, Eq)]
pub enum Section {
    Groups,
    Rules,
    Constraints,
}

// A refusal: its number in the table, and the place returned with it.
#[derive(Clone, Copy, Debug, PartialEq, Eq)]
pub struct Refusal {
    pub number: u8,
    pub place: usize,
}

// Where the rules and the constraints start. The groups start at 9, and the constraints end with the image.
#[derive(Clone, Copy, Debug, PartialEq, Eq)]
pub struct Starts {
    pub rules: usize,
    pub constraints: usize,
}

// The bytes of a record within an image.
#[derive(Clone, Copy, Debug, PartialEq, Eq)]
pub struct Extent {
    pub place: usize,
    pub length: usize,
}

// Why the record reader finds no whole record at the front of a part of an image: there is no record of the section, or one
// with a field that breaks its rule, at a place counted from the record's start.
#[derive(Clone, Copy, Debug, PartialEq, Eq)]
pub enum Misread {
    Malformed,
    BadField(usize),
}
