// Bytes and the header, put into a buffer: what lies past them stays.
ghost use Rattle.std.specs.Prelude.{[], ◌∷◌, ◌+◌, ◌≤◌, ◌<◌, length};
ghost use Rattle.format.specs.Bytes.{put_word};
ghost use Rattle.rewrite.specs.Inner.Put.{Wrote};

// The bytes of a part go to a place; the answer is the place past them.
#[tactic(auto, using(crate::proofs::PutLaws::put_copied))]
pub(crate) fn copy(buffer: &mut [u8], at: usize, part: &[u8]) -> usize
    requires { at + length part.now ≤ length buffer.old }
    ensures { Wrote buffer.old buffer.new at result part.now }
{
    let past = at + part.len();
    buffer[at..past].copy_from_slice(part);
    past
}

// The version, the length of the whole image, and the three counts.
pub(crate) fn put_header(
    buffer: &mut [u8],
    version: u8,
    size: usize,
    groups: usize,
    rules: usize,
    constraints: usize,
)
    requires { (9 ≤ length buffer.old) × (size < 65536) × (groups < 65536) × (rules < 65536) × (constraints < 65536) }
    ensures { Wrote buffer.old buffer.new 0 9
        (version ∷ put_word size (put_word groups (put_word rules (put_word constraints [])))) }
{
    let [s, s_low] = (size as u16).to_be_bytes();
    let [g, g_low] = (groups as u16).to_be_bytes();
    let [r, r_low] = (rules as u16).to_be_bytes();
    let [c, c_low] = (constraints as u16).to_be_bytes();
    copy(
        buffer,
        0,
        &[version, s, s_low, g, g_low, r, r_low, c, c_low],
    );
}
