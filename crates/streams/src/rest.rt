// What is left of the bytes that have come.
ghost use Rattle.std.specs.Prelude.{◌≡◌};
ghost use Rattle.streams.specs.Put.{kept_rest};

// Moves the bytes from a place up to another to the front of the buffer. Where the places are not there in this order, nothing
// changes.
pub fn keep_rest(buffer: &mut [u8], from: usize, to: usize)
    ensures { buffer.new ≡ kept_rest from to buffer.old }
{
    if to <= buffer.len() && from <= to {
        buffer.copy_within(from..to, 0);
    }
}
