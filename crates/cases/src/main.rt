// The sample sheet of document 01, with request [2]'s steps, as request [3]'s text, with request [5]'s story and request [6]'s
// switches, run through the C interface, and records given as parts of an image, which C does not have: each line is a case and
// its answer. The file stdout beside src/ has what the documents say.
#![tactic(auto)]

mod batch; // batch.rt: runs of queries on the sample
mod images; // images.rt: images that are longer than a line
mod show; // show.rt: a case's line
mod switches; // switches.rt: rules that a switch turns on
mod texts; // texts.rt: policies as text
mod twins; // twins.rt: twin groups, and an old image converted

use batch::runs;
use format::Section;
use images::{SIXTY_FIVE, many_rules};
use samples::{EMPTY, SAMPLE};
use show::{ask, check, give};
use std::io;
use switches::switches;
use texts::texts;
use twins::twins;

fn main(rt: HostRuntime) -> io::Result<()> {
    queries(&rt)?;
    rule_to_30(&rt)?;
    rule_to_group(&rt)?;
    companion(&rt)?;
    shared(&rt)?;
    not_shared(&rt)?;
    switches(&rt)?;
    cuts(&rt)?;
    members(&rt)?;
    rules(&rt)?;
    records(&rt)?;
    runs(&rt)?;
    texts(&rt)?;
    twins(&rt)
}

fn queries(rt: &impl Print) -> io::Result<()> {
    ask(rt, "10 21 5 1", &SAMPLE, [10, 21, 5, 1])?;
    ask(rt, "10 g0 5 1", &SAMPLE, [10, 32768, 5, 1])?;
    ask(rt, "13 21 5 1", &SAMPLE, [13, 21, 5, 1])?;
    ask(rt, "12 20 9 9", &SAMPLE, [12, 20, 9, 9])?;
    ask(rt, "20 30 5 2", &SAMPLE, [20, 30, 5, 2])?;
    ask(rt, "empty policy, 0 0 0 0", &EMPTY, [0, 0, 0, 0])?;
    ask(rt, "source 1024", &SAMPLE, [1024, 21, 5, 1])?;
    ask(rt, "source 32769", &SAMPLE, [32769, 21, 5, 1])?;
    ask(rt, "source 1023", &SAMPLE, [1023, 21, 5, 1])?;
    ask(rt, "10 21 5 2", &SAMPLE, [10, 21, 5, 2])?;
    ask(rt, "20 30 6 2", &SAMPLE, [20, 30, 6, 2])?;
    ask(rt, "12 30 5 1", &SAMPLE, [12, 30, 5, 1])
}

// The sample, with space for two records.
pub(crate) fn roomy() -> [u8; 102] {
    let mut buffer = [0u8; 102];
    buffer[..SAMPLE.len()].copy_from_slice(&SAMPLE);
    buffer
}

// The same, with a record added.
pub(crate) fn with(record: &[u8]) -> [u8; 102] {
    let mut buffer = roomy();
    mungaite::mungaite_add(&mut buffer, record);
    buffer
}

fn rule_to_30(rt: &impl Print) -> io::Result<()> {
    let buffer = with(b"\x0B\x02\x00\x0A\x00\x1E\x00\x05\x00\x03\x01");
    ask(
        rt,
        "with allow 10 30 5 3: 20 30 5 2",
        &buffer,
        [20, 30, 5, 2],
    )
}

fn rule_to_group(rt: &impl Print) -> io::Result<()> {
    let buffer = with(b"\x0B\x02\x00\x0E\x80\x00\x00\x07\x00\x07\x01");
    ask(
        rt,
        "with allow 14 g0 7 7: 10 21 5 1",
        &buffer,
        [10, 21, 5, 1],
    )?;
    ask(
        rt,
        "with allow 14 g0 7 7: 10 g0 5 1",
        &buffer,
        [10, 32768, 5, 1],
    )
}

fn companion(rt: &impl Print) -> io::Result<()> {
    let mut buffer = with(b"\x0B\x04\x00\x05\x00\x01\x00\x0A\x00\x15\x03");
    ask(
        rt,
        "with companion 10 21: 10 21 5 1",
        &buffer,
        [10, 21, 5, 1],
    )?;
    mungaite::mungaite_add(&mut buffer, b"\x0B\x02\x00\x15\x00\x0A\x00\x05\x00\x09\x01");
    ask(
        rt,
        "and allow 21 10 5 9: 10 21 5 1",
        &buffer,
        [10, 21, 5, 1],
    )
}

// Request [5]: the group of 20 and 21 at 20, and 20 alone at 30 (rule 1).
fn shared(rt: &impl Print) -> io::Result<()> {
    let buffer = with(b"\x0B\x02\x80\x00\x00\x14\x00\x05\x00\x03\x01");
    ask(
        rt,
        "with allow g0 20 5 3: 20 30 5 2",
        &buffer,
        [20, 30, 5, 2],
    )
}

// 21 at 20, and 20 at 30.
fn not_shared(rt: &impl Print) -> io::Result<()> {
    let buffer = with(b"\x0B\x02\x00\x15\x00\x14\x00\x05\x00\x03\x01");
    ask(
        rt,
        "with allow 21 20 5 3: 20 30 5 2",
        &buffer,
        [20, 30, 5, 2],
    )
}

fn cuts(rt: &impl Print) -> io::Result<()> {
    check(rt, "sample", &SAMPLE)?;
    check(rt, "empty policy", &EMPTY)?;
    check(rt, "last byte cut", &SAMPLE[..79])?;
    let mut cut = SAMPLE;
    cut[2] = 79;
    check(rt, "last byte cut, length field 79", &cut[..79])?;
    let mut longer = roomy();
    longer[2] = 81;
    check(
        rt,
        "one byte more, length field 81",
        image::leading(&longer),
    )?;
    let mut condition = SAMPLE;
    condition[25] = 33;
    check(rt, "condition 33", &condition)?;
    condition[25] = 34;
    check(rt, "condition 34", &condition)
}

fn members(rt: &impl Print) -> io::Result<()> {
    let mut fewer = SIXTY_FIVE;
    fewer[2] = 139;
    fewer[9] = 130;
    check(rt, "64 members", &fewer[..139])?;
    check(rt, "65 members", &SIXTY_FIVE)
}

fn rules(rt: &impl Print) -> io::Result<()> {
    let mut image = many_rules();
    image[..9].copy_from_slice(b"\x01\x20\x11\x00\x00\x04\x01\x00\x00");
    check(rt, "1,025 rules", image::leading(&image))?;
    image[2] = 0x09;
    image[6] = 0;
    check(rt, "1,024 rules", image::leading(&image))
}

fn records(rt: &impl Print) -> io::Result<()> {
    give(rt, "group 0", Section::Groups, 0, &SAMPLE[9..15])?;
    give(rt, "rule 3", Section::Rules, 3, &SAMPLE[45..56])?;
    give(rt, "constraint 1", Section::Constraints, 1, &SAMPLE[69..])?;
    give(rt, "constraint 2, none", Section::Constraints, 2, b"")
}
