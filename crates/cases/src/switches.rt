// Request [6]: rules that a switch of the query's word turns on.
use crate::show::ask_on;
use crate::with;
use samples::SAMPLE;
use std::io;

pub(crate) fn switches(rt: &impl Print) -> io::Result<()> {
    waiting_rule(rt)?;
    separation(rt)?;
    companion(rt)
}

// The sample's rule 3, which is off, by switch 0 and by switch 31.
fn waiting_rule(rt: &impl Print) -> io::Result<()> {
    let mut image = SAMPLE;
    image[55] = 2;
    ask_on(
        rt,
        "rule 3 by s0: 13 21 5 1, no switch",
        &image,
        [13, 21, 5, 1],
        0,
    )?;
    ask_on(
        rt,
        "rule 3 by s0: 13 21 5 1, switch 0",
        &image,
        [13, 21, 5, 1],
        1,
    )?;
    ask_on(
        rt,
        "rule 3 by s0: 13 21 5 1, all but 0",
        &image,
        [13, 21, 5, 1],
        0xFFFFFFFE,
    )?;
    image[55] = 33;
    ask_on(
        rt,
        "rule 3 by s31: 13 21 5 1, switch 31",
        &image,
        [13, 21, 5, 1],
        0x80000000,
    )?;
    ask_on(
        rt,
        "rule 3 by s31: 13 21 5 1, all but 31",
        &image,
        [13, 21, 5, 1],
        0x7FFFFFFF,
    )
}

// A rule that breaks the separation where its switch, 5, is on.
fn separation(rt: &impl Print) -> io::Result<()> {
    let buffer = with(b"\x0B\x02\x00\x0A\x00\x1E\x00\x05\x00\x03\x07");
    ask_on(
        rt,
        "with allow 10 30 5 3 by s5: 20 30 5 2, switches 0 to 4",
        &buffer,
        [20, 30, 5, 2],
        31,
    )?;
    ask_on(
        rt,
        "with allow 10 30 5 3 by s5: 20 30 5 2, switch 5",
        &buffer,
        [20, 30, 5, 2],
        32,
    )
}

// A companion's rule, by switch 5: turning it on lowers the decision.
fn companion(rt: &impl Print) -> io::Result<()> {
    let mut buffer = with(b"\x0B\x04\x00\x05\x00\x01\x00\x0A\x00\x15\x03");
    mungaite::mungaite_add(&mut buffer, b"\x0B\x02\x00\x15\x00\x0A\x00\x05\x00\x09\x07");
    ask_on(
        rt,
        "with companion 10 21 and allow 21 10 5 9 by s5: 10 21 5 1, no switch",
        &buffer,
        [10, 21, 5, 1],
        0,
    )?;
    ask_on(
        rt,
        "with companion 10 21 and allow 21 10 5 9 by s5: 10 21 5 1, switch 5",
        &buffer,
        [10, 21, 5, 1],
        32,
    )
}
