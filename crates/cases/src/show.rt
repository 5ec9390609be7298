// A case's line: its label and the answer. N, the steps and the rule, or N and a hyphen; P and the rule; U, the rule and the
// constraint; R, the number and the place; or that an image is accepted.
use format::Section;
use samples::SAMPLE;
use std::io;

// The query on the image that a buffer starts with, without a switch on: its source, destination, class and action.
pub(crate) fn ask(rt: &impl Print, label: &str, buffer: &[u8], query: [u16; 4]) -> io::Result<()> {
    ask_on(rt, label, buffer, query, 0)
}

// The same under a switch word.
pub(crate) fn ask_on(
    rt: &impl Print,
    label: &str,
    buffer: &[u8],
    query: [u16; 4],
    switches: u32,
) -> io::Result<()> {
    let [source, destination, class, action] = query;
    let image = image::leading(buffer);
    line(
        rt,
        label,
        mungaite::mungaite_decide(source, destination, class, action, switches, image),
    )
}

pub(crate) fn check(rt: &impl Print, label: &str, image: &[u8]) -> io::Result<()> {
    let answer = mungaite::mungaite_check(image);
    if answer == 0 {
        println!(rt; "{label}: accepted")
    } else {
        line(rt, label, answer)
    }
}

// Whether record n of a section of the sample is given as these bytes, and none where there is no such record.
pub(crate) fn give(
    rt: &impl Print,
    label: &str,
    section: Section,
    n: usize,
    bytes: &[u8],
) -> io::Result<()> {
    let record = image::record(&SAMPLE, section, n);
    println!(rt; "{label}: {} bytes", same_or_other(record == bytes))
}

// An answer of the C interface, whose numbers these are.
fn line(rt: &impl Print, label: &str, answer: u64) -> io::Result<()> {
    if answer == 0xFFFF {
        return println!(rt; "{label}: N -");
    }
    let third = number(answer >> 16);
    let fourth = number(answer);
    match answer >> 32 {
        0 => println!(rt; "{label}: N {third} {fourth}"),
        1 => println!(rt; "{label}: P {fourth}"),
        2 => println!(rt; "{label}: R {third} {fourth}"),
        _ => println!(rt; "{label}: U {third} {fourth}"),
    }
}

// What a run comes to, by the C interface.
pub(crate) fn comes(rt: &impl Print, label: &str, answer: u64) -> io::Result<()> {
    let third = number(answer >> 16);
    let fourth = number(answer);
    match answer >> 32 {
        0 => println!(rt; "{label}: row {fourth}"),
        1 => println!(rt; "{label}: fit"),
        _ => println!(rt; "{label}: R {third} {fourth}"),
    }
}

// What a text builds: the image's length, or the refusal; and whether the image is the one that is told.
pub(crate) fn built(rt: &impl Print, label: &str, answer: u64, same: bool) -> io::Result<()> {
    said(rt, label, answer >> 48, answer, same)
}

// What converting answers, and whether its bytes are those wanted: the image's length, or R, the number and the place.
pub(crate) fn converted(rt: &impl Print, label: &str, answer: u64, same: bool) -> io::Result<()> {
    said(rt, label, number(answer >> 16), answer, same)
}

// A refusal's number, which is 0 in the C interface's answers where there is none, the lowest 16 bits of an answer, and whether
// bytes are the same.
fn said(rt: &impl Print, label: &str, refusal: u64, answer: u64, same: bool) -> io::Result<()> {
    let fourth = number(answer);
    let which = same_or_other(same);
    if refusal == 0 {
        println!(rt; "{label}: {fourth}, {which} bytes")
    } else {
        println!(rt; "{label}: R {refusal} {fourth}, {which} bytes")
    }
}

// What a run's slot holds.
pub(crate) fn slot(rt: &impl Print, answer: u64) -> io::Result<()> {
    line(rt, "- slot", answer)
}

fn same_or_other(same: bool) -> &'static str {
    if same { "same" } else { "other" }
}

// The lowest 16 bits of a number.
fn number(parts: u64) -> u64 {
    parts & 0xFFFF
}
