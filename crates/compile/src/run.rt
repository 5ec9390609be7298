// One turn after the other: a read, and what its rows come to.
ghost use Rattle.lines.specs.Compiled.{row_line};
ghost use Rattle.compile.specs.Inner.Due.{DueErrors, Starts};
ghost use Rattle.compile.specs.Inner.Stop.{Comes};

use crate::line::put_row_line;
use crate::sink::{write_image, write_line};
use crate::stop::Stop;
use crate::turn::{Place, SPACE, end_turns, take_turn};
use lines::RowRefusal;
use std::io::{ErrorKind, Read, Write};
use std::time::Clock;
use streams::{Fault, read_between};

// More reads than a run makes.
const TURNS: u64 = 140737488355328;

// Takes turns until the input ends, a row is refused or an error ends it, and tells the image's length. A proved loop has to end,
// so it counts its turns, up to a number that no run uses up: so many reads take years. As a turn goes on by at most 65,536
// bytes, no place and no number of a row passes 64 bits.
fn read_rows<R, I>(rt: &R, stdin: &mut I, image: &mut [u8]) -> Result<usize, Stop>
where
    R: Clock,
    I: Read,
    requires { Starts image.old }
    ensures { Comes image.new result }
{
    let mut input = io::large_buffer();
    let mut p = Place {
        at: 0,
        row: 1,
        kept: 0,
    };
    for turn in 0..TURNS {
        match read_between(rt, stdin, &mut input, p.kept, SPACE)? {
            Some(n) => p = take_turn(p, &mut input, p.kept + n, image)?,
            None => return Ok(end_turns(p, &input, image)?),
        }
    }
    Err(Stop::Stream(Fault::Input(ErrorKind::TimedOut.into())))
}

// Writes the line of a refused row, which is due here alone (sink.rt).
fn refuse<R, E>(rt: &R, stderr: &mut E, f: RowRefusal) -> Result<(), Fault>
where
    R: Clock,
    E: Write,
    requires { DueErrors (row_line f) }
{
    let mut line = [0u8; 65];
    let end = put_row_line(f, &mut line);
    write_line(rt, stderr, &line[..end])
}

// Writes the image of the whole input, or the line of a refused row.
pub(crate) fn run<R, I, O, E>(
    rt: &R,
    stdin: &mut I,
    stdout: &mut O,
    stderr: &mut E,
    image: &mut [u8],
) -> Result<(), Fault>
where
    R: Clock,
    I: Read,
    O: Write,
    E: Write,
    requires { Starts image.old }
{
    match read_rows(rt, stdin, image) {
        Ok(n) => write_image(rt, stdout, &image[..n]),
        Err(Stop::Row(f)) => refuse(rt, stderr, f),
        Err(Stop::Stream(fault)) => Err(fault),
    }
}
