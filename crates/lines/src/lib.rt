// What the programs print is in specs/, and no code is here.
#![tactic(auto)]

// The refusal of a row: its number in the table, the place of the row's first byte in the text, and the row's number,
// counted from 1.
#[derive(Clone, Copy, Debug, PartialEq, Eq)]
pub struct RowRefusal {
    pub number: u8,
    pub place: usize,
    pub row: usize,
}
