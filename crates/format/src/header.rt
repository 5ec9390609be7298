// The header of an image in numbers: its length, the places of its fields, and the most records of each section.

// The length of the header, and so the place of the first record.
pub const SIZE: usize = 9;

// The places of the length field and of the three counts.
pub const LENGTH_AT: usize = 1;

pub const GROUPS_AT: usize = 3;

pub const RULES_AT: usize = 5;

pub const CONSTRAINTS_AT: usize = 7;

// The limits.
pub const MOST_GROUPS: usize = 256;

pub const MOST_RULES: usize = 1024;

pub const MOST_CONSTRAINTS: usize = 256;
