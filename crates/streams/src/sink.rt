// A write.
ghost use Rattle.std.specs.Prelude.{◌≤◌, ◌<◌, length, IfOk};
ghost use Rattle.streams.specs.Input.{Writes};

use crate::again::retry;
use std::io;
use std::io::{ErrorKind, Write};
use std::time::Clock;

// Writes all of the bytes. std's `write_all` makes a call again that was interrupted, and not one that would wait.
pub fn write_all<R, O>(rt: &R, output: &mut O, bytes: &[u8]) -> io::Result<()>
where
    R: Clock,
    O: Write,
    ensures { Writes (length bytes.now) result }
{
    let mut rest = bytes;
    while !rest.is_empty() {
        let done = write_some(rt, output, rest)?;
        rest = &rest[done..];
    }
    Ok(())
}

// Writes once and tells how many bytes were taken. A write that takes none is one that failed.
fn write_some<R, O>(rt: &R, output: &mut O, bytes: &[u8]) -> io::Result<usize>
where
    R: Clock,
    O: Write,
    ensures { IfOk result (λ n. (0 < n) × (n ≤ length bytes.now)) }
{
    for _ in 0..u64::MAX {
        match output.write(bytes) {
            Ok(0) => return Err(ErrorKind::WriteZero.into()),
            Ok(done) => return Ok(done),
            Err(error) => retry(rt, error)?,
        }
    }
    Err(ErrorKind::TimedOut.into())
}
