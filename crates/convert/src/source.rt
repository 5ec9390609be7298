// Standard input.
ghost use Rattle.std.specs.Prelude.{◌≡◌, length, IfOk};
ghost use Rattle.convert.specs.Inner.Input.{Whole};

use std::io::Read;
use std::time::Clock;
use streams::{Fault, read_between};

// There is space for so many bytes of an input.
const SPACE: usize = 65536;

// Reads to the end of the input, or until the space is full, and tells how many bytes there are.
pub(crate) fn read_input<R, I>(rt: &R, stdin: &mut I, space: &mut [u8]) -> Result<usize, Fault>
where
    R: Clock,
    I: Read,
    requires { SPACE ≡ length space.old }
    ensures { IfOk result (λ n. Whole n space.new) }
{
    let mut have: usize = 0;
    while have < SPACE {
        match read_between(rt, stdin, space, have, SPACE)? {
            Some(n) => have += n,
            None => return Ok(have),
        }
    }
    Ok(have)
}
