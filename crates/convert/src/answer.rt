// What is written for the bytes that were read.
ghost use Rattle.std.specs.Prelude.{◌≤◌, length};
ghost use Rattle.lines.specs.Lines.{line};
ghost use Rattle.lines.specs.Converted.{input_space, convert_output};
ghost use Rattle.convert.specs.Inner.Due.{Due, DueErrors};

use crate::sink::{write_image, write_line};
use format::Refusal;
use std::io::Write;
use std::time::Clock;
use streams::{Fault, put_refusal};

// Writes the line of a refused image, which is due here alone (sink.rt).
fn refuse<R, E>(rt: &R, stderr: &mut E, f: Refusal) -> Result<(), Fault>
where
    R: Clock,
    E: Write,
    requires { DueErrors (line (Err f)) }
{
    let mut text = [0u8; 44];
    let end = put_refusal(f, &mut text, 0);
    write_line(rt, stderr, &text[..end])
}

// Writes the new image, or the line. A new image is no longer than the old one, so the buffer always holds it.
pub(crate) fn answer<R, O, E>(
    rt: &R,
    stdout: &mut O,
    stderr: &mut E,
    input: &[u8],
) -> Result<(), Fault>
where
    R: Clock,
    O: Write,
    E: Write,
    requires { (length input.now ≤ input_space) × Due (convert_output input.now) }
{
    let mut image = io::large_buffer();
    match rewrite::convert(input, &mut image) {
        Err(f) => refuse(rt, stderr, f),
        Ok(n) => write_image(rt, stdout, &image[..n]),
    }
}
