// The image that a buffer starts with.
ghost use Rattle.std.specs.Prelude.{◌≡◌};
ghost use Rattle.format.specs.Check.{image_in, check_front};
ghost use Rattle.format.specs.Give.{Leads};
ghost use Rattle.format.specs.Answers.{outcome, starts};

use crate::checker::layout;
use crate::word::word_in;
use format::{Refusal, Starts, header};

// As many bytes as the length field says; where that is below 9 or beyond the buffer, all of it, which a check then refuses.
pub fn leading(buffer: &[u8]) -> &[u8]
    ensures { Leads buffer.entry result }
{
    if buffer.len() < header::SIZE {
        return &buffer[..];
    }
    let size = word_in(buffer, header::LENGTH_AT);
    if size < header::SIZE {
        return &buffer[..];
    }
    if buffer.len() < size {
        return &buffer[..];
    }
    &buffer[..size]
}

// Where the sections of the image start that a buffer starts with, else the refusal.
pub fn front(buffer: &[u8]) -> Result<Starts, Refusal>
    ensures { result ≡ outcome (check_front buffer.now) (starts (image_in buffer.now)) }
{
    layout(leading(buffer))
}
