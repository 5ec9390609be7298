// Numbers in bytes: big-endian and unsigned.
ghost use Rattle.std.specs.Prelude.{◌≡◌, ◌+◌, ◌<◌, length};
ghost use Rattle.extension.specs.Inner.Splice.{put_word_at};

// A 2-byte number goes to a place.
pub(crate) fn put_word(buffer: &mut [u8], at: usize, value: usize)
    requires { (at + 1 < length buffer.old) × (value < 65536) }
    ensures { buffer.new ≡ put_word_at buffer.old at value }
{
    buffer[at..at + 2].copy_from_slice(&(value as u16).to_be_bytes());
}
