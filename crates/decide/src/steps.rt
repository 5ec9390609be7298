// The steps of a run: what it begins with, and each of its rows.
ghost use Rattle.std.specs.Prelude.{◌≡◌};
ghost use Rattle.runs.specs.Runs.{run_fault, queries_fault};
ghost use Rattle.runs.specs.Inner.Progress.{open_fault, run_said, rows_for, next_run};
ghost use Rattle.decide.specs.Inner.Verdicts.{RowTables};
ghost use Rattle.decide.specs.Inner.Steps.{Begins, Stepped};

use crate::policy::Survey;
use crate::verdicts::{Held, Tables};
use decision::{Answer, Decision, Query};
use format::{Cause, Refusal, Starts};
use image::survey;
use runs::Run;

// What a run comes to so far, and the words that the verdicts kept in it are right for.
#[derive(Clone, Copy)]
pub(crate) struct Progress {
    pub run: Run,
    pub held: Option<Held>,
}

// What a run begins with: how many rows are decided, what it comes to before the first of them, and the policy as the check
// leaves it.
#[derive(Drop)]
pub(crate) struct Begun {
    pub rows: usize,
    pub progress: Progress,
    pub sections: Result<Starts, Refusal>,
    pub groups: [u16; 256],
}

// A row's answer, and what the run comes to after it.
#[derive(Clone, Copy)]
pub(crate) struct Step {
    pub answer: Answer,
    pub progress: Progress,
}

// What a run comes to before its first row. The refusals in their order: the image's, then 16, then 17.
fn opening(sections: Result<Starts, Refusal>, rows: usize, fits: bool) -> Run
    ensures { result ≡ run_said (open_fault (sections) rows fits) }
{
    sections?;
    if rows < 1 {
        return Err(Cause::Rows.at(0));
    }
    if 64 < rows {
        return Err(Cause::Rows.at(0));
    }
    if !fits {
        return Err(Cause::Answers.at(0));
    }
    Ok(None)
}

// How many rows are decided: none where the run is refused.
fn decided(run: Run, rows: usize) -> usize
    ensures { result ≡ rows_for run rows }
{
    match run {
        Ok(_) => rows,
        Err(_) => 0,
    }
}

// What a run begins with, where the list of answers fits or not.
pub(crate) fn begin(image: &[u8], rows: usize, fits: bool) -> Begun
    ensures { Begins image.now rows (run_fault image.now rows fits) result }
{
    let mut groups = [0u16; 256];
    let sections = survey(image, &mut groups);
    let run = opening(sections, rows, fits);
    Begun {
        rows: decided(run, rows),
        progress: Progress { run, held: None },
        sections,
        groups,
    }
}

// The same for a list of queries and one of slots for their answers.
pub(crate) fn begin_queries(image: &[u8], rows: usize, slots: usize) -> Begun
    ensures { Begins image.now rows (queries_fault image.now rows slots) result }
{
    begin(image, rows, slots == rows)
}

// What a run comes to after row i: the first row that is not Permitted is kept.
fn next(run: Run, i: usize, a: Answer) -> Run
    ensures { result ≡ next_run run i a }
{
    match run {
        Ok(None) => match a {
            Ok(Decision::Permitted(_)) => Ok(None),
            _ => Ok(Some(i)),
        },
        _ => run,
    }
}

impl Survey<'_> {
    // Row i.
    pub(crate) fn decide_row(
        self,
        q: Query,
        tables: &mut Tables,
        progress: Progress,
        i: usize,
    ) -> Step
        requires { RowTables self.image.now progress.held tables.old }
        ensures { Stepped self.entry.image.now q progress.run i result
            × RowTables self.entry.image.now result.progress.held tables.new }
    {
        let run = progress.run;
        let held = self.recall(&mut tables.verdicts, progress.held, q.switches);
        let answer = self.answer(q, tables);
        Step {
            answer,
            progress: Progress {
                run: next(run, i, answer),
                held: Some(held),
            },
        }
    }
}
