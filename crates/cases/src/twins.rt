// Twin groups, refused in an image and in a text, and an old image converted through the C interface.
use crate::show::{check, converted};
use crate::texts::build;
use samples::SAMPLE;
use std::io;

// Groups 0 and 2 are twins, and 1, 3 and 5; two rules and a roster name them.
const OLD: [u8; 71] = *b"\x01\x00\x47\x00\x06\x00\x02\x00\x01\
    \x06\x01\x00\x14\x00\x15\x04\x01\x00\x05\x06\x01\x00\x14\x00\x15\x04\x01\x00\x05\x04\x01\x00\x07\x04\x01\x00\x05\
    \x0B\x02\x80\x02\x80\x04\x00\x05\x00\x01\x01\x08\x03\x00\x05\x80\x05\x00\x05\
    \x0F\x04\x00\x05\x00\x01\x80\x02\x00\x05\x02\x80\x03\x80\x04";

// Groups 2, 3 and 5 are gone, and group 4 is now 2.
const NEW: [u8; 57] = *b"\x01\x00\x39\x00\x03\x00\x02\x00\x01\
    \x06\x01\x00\x14\x00\x15\x04\x01\x00\x05\x04\x01\x00\x07\
    \x0B\x02\x80\x00\x80\x02\x00\x05\x00\x01\x01\x08\x03\x00\x05\x80\x01\x00\x05\
    \x0F\x04\x00\x05\x00\x01\x80\x00\x00\x05\x02\x80\x01\x80\x02";

pub(crate) fn twins(rt: &impl Print) -> io::Result<()> {
    check(rt, "six groups, three of them twins", &OLD)?;
    build(
        rt,
        "group 5, group 5",
        b"group 5\ngroup 5",
        b"\x01\x00\x0D\x00\x01\x00\x00\x00\x00\x04\x01\x00\x05",
    )?;
    convert(rt, "six groups converted", &OLD, &NEW)?;
    convert(rt, "sample converted", &SAMPLE, &SAMPLE)?;
    let mut short = [7u8; 56];
    let answer = mungaite::mungaite_convert(&OLD, &mut short);
    converted(rt, "six groups into 56 bytes", answer, short == [7u8; 56])
}

// The answer, and whether the image that is written is these bytes.
fn convert(rt: &impl Print, label: &str, old: &[u8], new: &[u8]) -> io::Result<()> {
    let mut buffer = [7u8; 90];
    let answer = mungaite::mungaite_convert(old, &mut buffer);
    converted(rt, label, answer, image::leading(&buffer) == new)
}
