// Runs of queries on the sample: the document's queries as rows, and the refusals of request 1. A slot holds UnKnown, rule 7 and
// constraint 7, before.
use crate::show::{comes, slot};
use samples::SAMPLE;
use std::io;

const BEFORE: u64 = 0x300070007;

pub(crate) fn runs(rt: &impl Print) -> io::Result<()> {
    run(
        rt,
        "run of 10 21 5 1, 10 g0 5 1, 12 20 9 9",
        &[
            10, 21, 5, 1, 0, 0, 10, 32768, 5, 1, 0, 0, 12, 20, 9, 9, 0, 0,
        ],
        &SAMPLE,
        &mut [BEFORE; 3],
    )?;
    run(
        rt,
        "run of 10 21 5 1, 12 20 9 9, 13 21 5 1",
        &[10, 21, 5, 1, 0, 0, 12, 20, 9, 9, 0, 0, 13, 21, 5, 1, 0, 0],
        &SAMPLE,
        &mut [BEFORE; 3],
    )?;
    run(
        rt,
        "run of 10 21 5 1, 1024 21 5 1, 20 30 5 2",
        &[10, 21, 5, 1, 0, 0, 1024, 21, 5, 1, 0, 0, 20, 30, 5, 2, 0, 0],
        &SAMPLE,
        &mut [BEFORE; 3],
    )?;
    run(
        rt,
        "run of five numbers, no row",
        &[10, 21, 5, 1, 0],
        &SAMPLE,
        &mut [BEFORE; 1],
    )?;
    run(
        rt,
        "run of two rows, one slot",
        &[10, 21, 5, 1, 0, 0, 12, 20, 9, 9, 0, 0],
        &SAMPLE,
        &mut [BEFORE; 1],
    )?;
    words(rt)
}

// The run of rows on an image: what it comes to, and what each slot then holds.
fn run(
    rt: &impl Print,
    label: &str,
    rows: &[u16],
    image: &[u8],
    answers: &mut [u64],
) -> io::Result<()> {
    comes(rt, label, mungaite::mungaite_run(rows, answers, image))?;
    for answer in answers {
        slot(rt, *answer)?;
    }
    Ok(())
}

// Rows of one query under words of their own, on the sample with its rule 3 by switch 16: the lowest of a word's high half.
fn words(rt: &impl Print) -> io::Result<()> {
    let mut image = SAMPLE;
    image[55] = 18;
    run(
        rt,
        "rule 3 by s16: run of 13 21 5 1, switch 0, then 16, then 0",
        &[13, 21, 5, 1, 0, 1, 13, 21, 5, 1, 1, 0, 13, 21, 5, 1, 0, 1],
        &image,
        &mut [BEFORE; 3],
    )
}
