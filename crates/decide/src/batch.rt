// A run: many queries on one policy, each decided as the single query is. The image is checked once, and what does not depend
// on the row is found once: the groups' places, and what the rules say of each constraint, under each of two words.
ghost use Rattle.std.specs.Prelude.{◌≡◌, ◌*◌, length, eqb};
ghost use Rattle.runs.specs.Runs.{run_of, answers_after};
ghost use Rattle.runs.specs.Numbers.{word_from, numbers_run, codes_after};
ghost use Rattle.runs.specs.Inner.Progress.{row_at};

use crate::policy::Survey;
use crate::steps::{Begun, begin, begin_queries};
use crate::verdicts::Tables;
use decision::{Answer, Query};
use numbers::number;
use runs::Run;

// A run of 1 to 64 rows: each slot gets what its row's query is answered, a refusal included. A refused call leaves the slots as
// they were.
pub fn run(image: &[u8], queries: &[Query], answers: &mut [Answer]) -> Run
    ensures { (result ≡ run_of image.now queries.now (length answers.old))
        × (answers.new ≡ answers_after image.now queries.now answers.old) }
{
    let Begun {
        rows,
        mut progress,
        sections,
        groups,
    } = begin_queries(image, queries.len(), answers.len());
    let surveyed = Survey {
        image,
        groups: &groups,
        sections,
    };
    let mut tables = Tables::new();
    // by number, as a proof knows nothing of what a loop over a zip of `iter_mut` writes
    let slots = &mut answers[..rows];
    for (i, slot) in slots.iter_mut().enumerate() {
        let s = surveyed.decide_row(queries[i], &mut tables, progress, i);
        *slot = s.answer;
        progress = s.progress;
    }
    progress.run
}

// A word from its two halves.
fn word_of(high: u16, low: u16) -> u32
    ensures { result ≡ word_from high low }
{
    u32::from(high) * 65536 + u32::from(low)
}

// The query in a row of six numbers.
fn query_of(row: &[u16; 6]) -> Query
    ensures { result ≡ row_at row.now 0 }
{
    Query {
        source: row[0],
        dest: row[1],
        class: row[2],
        action: row[3],
        switches: word_of(row[4], row[5]),
    }
}

// Whether there are six numbers for each slot.
fn six_each(numbers: usize, slots: usize) -> bool
    ensures { result ≡ eqb numbers (6 * slots) }
{
    numbers % 6 == 0 && numbers / 6 == slots
}

// The same run over numbers: six for each row, its word's halves last, and one for each answer. One walk for both runs would take
// two closures, for a row's query and an answer's slot, and its contract would have to say what these answer.
pub fn run_numbers(image: &[u8], queries: &[u16], answers: &mut [u64]) -> Run
    ensures { (result ≡ numbers_run image.now queries.now (length answers.old))
        × (answers.new ≡ codes_after image.now queries.now answers.old) }
{
    let rows: &[[u16; 6]] = queries.as_chunks().0;
    let fits = six_each(queries.len(), answers.len());
    let Begun {
        rows: count,
        mut progress,
        sections,
        groups,
    } = begin(image, rows.len(), fits);
    let surveyed = Survey {
        image,
        groups: &groups,
        sections,
    };
    let mut tables = Tables::new();
    // by number, as in `run`
    let slots = &mut answers[..count];
    for (i, slot) in slots.iter_mut().enumerate() {
        let q = query_of(&rows[i]);
        let s = surveyed.decide_row(q, &mut tables, progress, i);
        *slot = number(s.answer);
        progress = s.progress;
    }
    progress.run
}
