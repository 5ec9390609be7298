// Standard output and standard error.
// `convert` has these two as well, for what is due there: one function for both could ask for neither.
ghost use Rattle.compile.specs.Inner.Due.{DueOutput, DueErrors};

use std::io::Write;
use std::time::Clock;
use streams::{Fault, write_all};

// Writes an image that is due, all of it.
pub(crate) fn write_image<R, O>(rt: &R, stdout: &mut O, bytes: &[u8]) -> Result<(), Fault>
where
    R: Clock,
    O: Write,
    requires { DueOutput bytes.now }
{
    write_all(rt, stdout, bytes).map_err(Fault::Output)
}

// Writes the line of a refused row that is due, all of it.
pub(crate) fn write_line<R, E>(rt: &R, stderr: &mut E, bytes: &[u8]) -> Result<(), Fault>
where
    R: Clock,
    E: Write,
    requires { DueErrors bytes.now }
{
    write_all(rt, stderr, bytes).map_err(Fault::Errors)
}
