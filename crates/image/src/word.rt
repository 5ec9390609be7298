// Numbers in bytes: big-endian and unsigned.
ghost use Rattle.std.specs.Prelude.{◌≡◌, ◌+◌, ◌<◌, length};
ghost use Rattle.format.specs.Bytes.{word_at};

// The 2-byte number at a place; a byte past the end counts as 0.
#[tactic(auto, unfolding(format::specs::Bytes::word_at))]
pub fn word_at(bytes: &[u8], at: usize) -> usize
    ensures { (result ≡ word_at bytes.now at) × (result < 65536) }
{
    match bytes.get(at..) {
        Some([high, low, ..]) => usize::from(u16::from_be_bytes([*high, *low])),
        Some([high]) => usize::from(u16::from_be_bytes([*high, 0])),
        _ => 0,
    }
}

// The same of two bytes that there are: the check reads by this one, without the tests. As it asks that of its caller it is
// private, and `decide` has its own.
#[tactic(auto, unfolding(format::specs::Bytes::word_at))]
pub(crate) fn word_in(bytes: &[u8], at: usize) -> usize
    requires { at + 1 < length bytes.now }
    ensures { (result ≡ word_at bytes.now at) × (result < 65536) }
{
    usize::from(u16::from_be_bytes([bytes[at], bytes[at + 1]]))
}
