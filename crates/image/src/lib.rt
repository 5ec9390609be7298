// Reading a policy image: the check, the record reader, and record n of a section.
//
// Each public function takes any bytes and says in its contract what it answers, by the definitions of the crate `format`, and
// `survey` and `survey_old` by specs/Survey.antt. Nothing lent is changed but the tables of these two, and nothing is remembered
// from one call to the next.
#![tactic(auto)]

mod word; // word.rt: numbers in bytes
mod kind; // kind.rt: kinds, lengths and the fields' single rules
mod fields; // fields.rt: the fields of a record, by its kind
mod reader; // reader.rt: the record at the front of a part
mod twins; // twins.rt: twin groups
mod checker; // checker.rt: the check of an image
mod front_part; // front_part.rt: the image that a buffer starts with
mod give; // give.rt: record n of a section

pub use checker::{check, layout, survey, survey_old};
pub use front_part::{front, leading};
pub use give::{find, record};
pub use kind::is_type;
pub use reader::read_record;
pub use twins::same_record;
pub use word::word_at;
