// What standard input holds: the image's bytes, then what each read brings.
ghost use Rattle.std.specs.Prelude.{◌≡◌, ◌<◌, length, IfOk};
ghost use Rattle.lines.specs.Output.{image_size};
ghost use Rattle.permit.specs.Inner.Input.{ImageRead};

use format::header;
use std::io::Read;
use std::time::Clock;
use streams::{Fault, read_between};

// How many bytes of an image were read: all that it takes, or fewer, since the input ended, which the contract of `read_image` tells
// apart.
#[derive(Clone, Copy)]
pub(crate) enum Taken {
    Whole(usize),
    Cut(usize),
}

// How many bytes the image takes, as far as these tell.
#[tactic(auto, using(lines::proofs::Image::size_none, lines::proofs::Image::size_short, lines::proofs::Image::size_whole))]
fn image_size(bytes: &[u8]) -> usize
    ensures { (result ≡ image_size bytes.now) × (result < 65536) }
{
    if bytes.len() < header::SIZE {
        return header::SIZE;
    }
    image::word_at(bytes, header::LENGTH_AT).max(header::SIZE)
}

// Reads the image and no byte past it: first the header, then what the length field tells.
pub(crate) fn read_image<R, I>(rt: &R, stdin: &mut I, space: &mut [u8]) -> Result<Taken, Fault>
where
    R: Clock,
    I: Read,
    requires { 65536 ≡ length space.old }
    ensures { IfOk result (λ r. ImageRead space.new r) }
{
    let mut have: usize = 0;
    loop {
        let size = image_size(&space[..have]);
        if have == size {
            return Ok(Taken::Whole(have));
        }
        match read_between(rt, stdin, space, have, size)? {
            Some(n) => have += n,
            None => return Ok(Taken::Cut(have)),
        }
    }
}
