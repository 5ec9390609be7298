// A read.
ghost use Rattle.std.specs.Prelude.{◌≡◌, length};
ghost use Rattle.streams.specs.Input.{brought_by, Brings, ReadBetween};

use crate::again::retry;
use crate::fault::Fault;
use std::io;
use std::io::{ErrorKind, Read};
use std::time::Clock;

// What an answer of `read` says: how many bytes came, or none where the input has ended, or an error.
fn brought(answer: io::Result<usize>, part: &[u8]) -> io::Result<Option<usize>>
    ensures { result ≡ brought_by answer (length part.now) }
{
    match answer? {
        0 => Ok(None),
        count => Ok(Some(count.min(part.len()))),
    }
}

// Reads once from standard input into a part. No contract can say which bytes come. A proved loop has to end, so it counts its
// tries, up to a number that no run uses up.
// `write_some` has this loop too. One loop around a closure was tried: what std promises of the count is lost in it.
pub fn read_some<R, I>(rt: &R, input: &mut I, part: &mut [u8]) -> Result<Option<usize>, Fault>
where
    R: Clock,
    I: Read,
    ensures { Brings (length part.old) result }
{
    for _ in 0..u64::MAX {
        let answer = input.read(part);
        match brought(answer, part) {
            Ok(came) => return Ok(came),
            Err(error) => retry(rt, error).map_err(Fault::Input)?,
        }
    }
    Err(Fault::Input(ErrorKind::TimedOut.into()))
}

// Reads once into a buffer, from a place up to another, and leaves the bytes before and behind. Places that are not there in
// this order are a read that failed.
pub fn read_between<R, I>(
    rt: &R,
    input: &mut I,
    buffer: &mut [u8],
    from: usize,
    to: usize,
) -> Result<Option<usize>, Fault>
where
    R: Clock,
    I: Read,
    ensures { ReadBetween from to buffer.old result buffer.new }
{
    if to < from || buffer.len() < to {
        return Err(Fault::Input(ErrorKind::InvalidInput.into()));
    }
    read_some(rt, input, &mut buffer[from..to])
}
