// Why a call is refused. The numbers are those of document 01's table, "When the engine says no", and of the requests that add one.
ghost use Rattle.std.specs.Prelude.{◌≡◌};
ghost use Rattle.format.specs.Refusals.{refusal};
ghost use Rattle.format.specs.Causes.{number_of};

use crate::Refusal;

#[derive(Clone, Copy, Debug, PartialEq, Eq)]
pub enum Cause {
    ShortImage = 1,
    Version = 2,
    Length = 3,
    Count = 4,
    Record = 5,
    Field = 6,
    BytesBehind = 7,
    Source = 8,
    Destination = 9,
    AddedRecord = 10,
    AddedField = 11,
    SectionFull = 12,
    ShortBuffer = 13,
    NoSuchRecord = 14,
    BytesLeft = 15,
    Rows = 16,
    Answers = 17,
    Row = 18,
    Twin = 19,
    AddedTwin = 20,
}

impl Cause {
    // The refusal with this cause, and a place.
    pub fn at(self, place: usize) -> Refusal
        ensures { result ≡ refusal (number_of self) place }
    {
        Refusal {
            number: self as u8,
            place,
        }
    }
}
