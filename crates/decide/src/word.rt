// Numbers in bytes: big-endian and unsigned.
ghost use Rattle.std.specs.Prelude.{◌≡◌, ◌+◌, ◌*◌, ◌≤◌, ◌<◌, length, map};
ghost use Rattle.std.specs.Int.{w16, from_be_bytes};
ghost use Rattle.format.specs.Bytes.{word_at};
ghost use Rattle.format.specs.Inner.Places.{words_at};

// The 2-byte number at a place that has two bytes: `image::word_at` without its tests, which DECISIONS 12 has the cost of. By
// `u16::from_be_bytes`, which turns 16 bits round, decisions take up to a tenth longer.
#[tactic(auto, using(format::proofs::Bytes::word_at_lem))]
pub(crate) fn word_in(bytes: &[u8], at: usize) -> usize
    requires { at + 1 < length bytes.now }
    ensures { (result ≡ word_at bytes.now at) × (result < 65536) }
{
    usize::from(bytes[at]) * 256 + usize::from(bytes[at + 1])
}

// The same of two bytes.
pub(crate) fn word(pair: &[u8; 2]) -> usize
    ensures { result ≡ from_be_bytes w16 pair.now }
{
    usize::from(pair[0]) * 256 + usize::from(pair[1])
}

// The members of a part of the image, two bytes each.
pub(crate) fn pairs(image: &[u8], from: usize, count: usize) -> &[[u8; 2]]
    requires { from + 2 * count ≤ length image.now }
    ensures { map (from_be_bytes w16) result.now ≡ words_at image.now count from }
{
    image[from..from + 2 * count].as_chunks().0
}
