// Policies as text, built through the C interface.
use crate::show::built;
use samples::{EMPTY, SAMPLE};
use std::io;

pub(crate) fn texts(rt: &impl Print) -> io::Result<()> {
    build(
        rt,
        "text of the sample",
        b"group 20 21\nallow 10 g0 5 1 on\nallow 20 30 5 2 on\ntrans 12 20 5\nallow 13 21 5 1 off\n\n\
        limit 5 1 10 21 2 10\nlimit 5 2 20 30 1",
        &SAMPLE,
    )?;
    let mut switched = SAMPLE;
    switched[55] = 33;
    build(
        rt,
        "text of the sample, rule 3 by s31",
        b"group 20 21\nallow 10 g0 5 1 on\nallow 20 30 5 2 on\ntrans 12 20 5\nallow 13 21 5 1 s31\n\
        limit 5 1 10 21 2 10\nlimit 5 2 20 30 1\n",
        &switched,
    )?;
    build(rt, "allow 1 2 3 4 s32", b"allow 1 2 3 4 s32", &EMPTY)?;
    build(rt, "empty text", b"", &EMPTY)?;
    build(
        rt,
        "group 20 21, allow 10 g0 5 1 ON",
        b"group 20 21\nallow 10 g0 5 1 ON",
        b"\x01\x00\x0F\x00\x01\x00\x00\x00\x00\x06\x01\x00\x14\x00\x15",
    )?;
    build(rt, "trans 1 1024 3", b"trans 1 1024 3\n", &EMPTY)
}

// The answer, and whether the image that is left is these bytes.
pub(crate) fn build(rt: &impl Print, label: &str, text: &[u8], image: &[u8]) -> io::Result<()> {
    let mut buffer = [7u8; 90];
    let answer = mungaite::mungaite_build(text, &mut buffer);
    built(rt, label, answer, image::leading(&buffer) == image)
}
