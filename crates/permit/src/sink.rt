// Standard output.
ghost use Rattle.permit.specs.Inner.Turn.{Due};

use std::io::Write;
use std::time::Clock;
use streams::Fault;

// Writes what is due, all of it.
pub(crate) fn write_due<R, O>(rt: &R, stdout: &mut O, bytes: &[u8]) -> Result<(), Fault>
where
    R: Clock,
    O: Write,
    requires { Due bytes.now }
{
    streams::write_all(rt, stdout, bytes).map_err(Fault::Output)
}
