// Line feeds in the bytes that have come.
ghost use Rattle.std.specs.Prelude.{◌≡◌, ◌≤◌, length};
ghost use Rattle.lines.specs.Compiled.{feeds, cut};

// How many bytes there are up to the last line feed, which is one of them.
pub(crate) fn rows_end(bytes: &[u8]) -> usize
    ensures { (result ≡ cut bytes.now) × (result ≤ length bytes.now) }
{
    match bytes.iter().rposition(|byte| *byte == b'\n') {
        Some(last) => last + 1,
        None => 0,
    }
}

// How many line feeds there are.
pub(crate) fn count_feeds(bytes: &[u8]) -> usize
    ensures { (result ≡ feeds bytes.now) × (result ≤ length bytes.now) }
{
    let mut count = 0;
    for byte in bytes {
        count += usize::from(*byte == b'\n');
    }
    count
}
