// One turn after the other: a read, and the lines for it, on an accepted image.
ghost use Rattle.std.specs.Prelude.{◌≡◌, ◌+◌, ◌≤◌, ◌<◌, length, take};
ghost use Rattle.format.specs.Check.{Accepted};
ghost use Rattle.permit.specs.Inner.Turn.{count, Turned, Faulty};

use crate::answers::{put_answers, put_ending};
use crate::sink::write_due;
use format::Refusal;
use std::io::{Read, Write};
use std::time::Clock;
use streams::{Fault, keep_rest, put_refusal, read_between};

// There is room for so many queries of one read, for their bytes, and for their lines, fewer than 4 bytes for each of those.
const QUERIES: usize = 2048;

const INPUT: usize = 12 * QUERIES;

const OUTPUT: usize = 4 * INPUT;

// What a turn leaves: how many bytes of the input are kept, and how many of the output are to be written.
#[derive(Clone, Copy)]
pub(crate) struct Turn {
    pub kept: usize,
    pub end: usize,
}

// Makes the lines that are to be written for what a read has brought, behind the bytes that were kept. The whole queries'
// lines if bytes came, and the bytes past the last whole query are kept; the last line if the input has ended; and none if it
// could not be read.
fn take_turn(
    image: &[u8],
    came: Result<Option<usize>, Fault>,
    input: &mut [u8],
    kept: usize,
    numbers: &mut [u64],
    output: &mut [u8],
) -> Turn
    requires { (Accepted image.now) × (kept < 12) × (INPUT ≡ length input.old) × (QUERIES ≡ length numbers.old)
        × (OUTPUT ≡ length output.old) × (kept + count came ≤ INPUT) }
    ensures { Turned came image.now (take (kept + count came) input.old) input.new output.new result }
{
    match came {
        Ok(Some(n)) => {
            let have = kept + n;
            let end = put_answers(image, &input[..have], numbers, output);
            let rest = have % 12;
            keep_rest(input, have - rest, have);
            Turn { kept: rest, end }
        }
        Ok(None) => Turn {
            kept,
            end: put_ending(&input[..kept], output),
        },
        Err(_) => Turn { kept, end: 0 },
    }
}

// Takes turns until the input ends, or an error ends it. A proved loop has to end, so it counts its turns, up to a number that
// no run uses up.
pub(crate) fn serve<R, I, O>(
    rt: &R,
    stdin: &mut I,
    stdout: &mut O,
    image: &[u8],
) -> Result<(), Fault>
where
    R: Clock,
    I: Read,
    O: Write,
    requires { Accepted image.now }
{
    let mut input = [0; INPUT];
    let mut numbers = [0; QUERIES];
    let mut output = [0; OUTPUT];
    let mut kept: usize = 0;
    for _ in 0..u64::MAX {
        let came = read_between(rt, stdin, &mut input, kept, INPUT);
        let t = take_turn(image, came, &mut input, kept, &mut numbers, &mut output);
        let end = t.end;
        write_due(rt, stdout, &output[..end])?;
        if came?.is_none() {
            break;
        }
        kept = t.kept;
    }
    Ok(())
}

// Writes the line of an image's refusal.
pub(crate) fn refuse<R, O>(rt: &R, stdout: &mut O, f: Refusal) -> Result<(), Fault>
where
    R: Clock,
    O: Write,
    requires { Faulty f }
{
    let mut text = [0u8; 44];
    let end = put_refusal(f, &mut text, 0);
    write_due(rt, stdout, &text[..end])
}
