// Many queries at once: rows of 12 bytes, and a slot for the number of each answer.
ghost use Rattle.std.specs.Prelude.{◌≡◌, length};
ghost use Rattle.decision.specs.Decide.{answer};
ghost use Rattle.decision.specs.Numbers.{decision_code};
ghost use Rattle.decision.specs.Rows.{query_at, rows_in, answered};
ghost use Rattle.decide.specs.Inner.Verdicts.{RowTables};

use crate::policy::Survey;
use crate::verdicts::{Held, Tables};
use decision::Query;
use image::survey;
use numbers::number;

// The query in a row: four numbers of 2 bytes, and the switch word's 4.
#[tactic(auto, using(format::proofs::Bytes::word_at_lem))]
fn query_in(row: &[u8; 12]) -> Query
    ensures { result ≡ query_at row.now 0 }
{
    Query {
        source: u16::from_be_bytes([row[0], row[1]]),
        dest: u16::from_be_bytes([row[2], row[3]]),
        class: u16::from_be_bytes([row[4], row[5]]),
        action: u16::from_be_bytes([row[6], row[7]]),
        switches: u32::from_be_bytes([row[8], row[9], row[10], row[11]]),
    }
}

// The number of a row's answer, and the words that the verdicts are right for after it.
#[derive(Clone, Copy)]
pub(crate) struct Told {
    pub number: u64,
    pub held: Held,
}

impl Survey<'_> {
    // A row.
    fn row(self, bytes: &[u8; 12], tables: &mut Tables, before: Option<Held>) -> Told
        requires { RowTables self.image.now before tables.old }
        ensures { (result.number ≡ decision_code (answer self.entry.image.now (query_at bytes.now 0)))
            × RowTables self.entry.image.now (Some result.held) tables.new }
    {
        let q = query_in(bytes);
        let held = self.recall(&mut tables.verdicts, before, q.switches);
        let answer = self.answer(q, tables);
        Told {
            number: number(answer),
            held,
        }
    }
}

// Answers as many whole rows as there are slots, and tells how many. Every other slot stays as it is. A refused image gives its
// refusal in the slot of each row. The image is checked once, and each constraint asks the rules at most once; where a rule names
// a switch, once under a word, as long as no two others come between.
pub fn decide_all(image: &[u8], queries: &[u8], answers: &mut [u64]) -> usize
    ensures value { result ≡ rows_in queries.now (length answers.old) }
    ensures answers_after { answers.new ≡ answered image.now queries.now answers.old }
{
    let rows: &[[u8; 12]] = queries.as_chunks().0;
    let count = rows.len().min(answers.len());
    let mut groups = [0u16; 256];
    let sections = survey(image, &mut groups);
    let surveyed = Survey {
        image,
        groups: &groups,
        sections,
    };
    let mut tables = Tables::new();
    let mut held = None;
    // by number, as a proof knows nothing of what a loop over a zip of `iter_mut` writes
    let slots = &mut answers[..count];
    for (k, slot) in slots.iter_mut().enumerate() {
        let r = surveyed.row(&rows[k], &mut tables, held);
        *slot = r.number;
        held = Some(r.held);
    }
    count
}
