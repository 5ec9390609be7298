// Bytes and numbers put into a buffer, from a place on. Each function tells the place past what it has put; where there may be
// too little room, it puts nothing and tells the place that it was handed.
ghost use Rattle.std.specs.Prelude.{◌≡◌, [], ◌∷◌, ◌+◌, ◌*◌, ◌≤◌, length};
ghost use Rattle.lines.specs.Lines.{decimal, field, line};
ghost use Rattle.streams.specs.Put.{placed, numbers_line, Puts};

use format::Refusal;

// A byte.
pub fn put_byte(byte: u8, output: &mut [u8], at: usize) -> usize
    ensures { Puts 1 (byte ∷ []) at output.old result output.new }
{
    if output.len() <= at {
        return at;
    }
    output[at] = byte;
    at + 1
}

// A number in decimal. Most have one digit, and that is put at once.
fn put_number(n: usize, output: &mut [u8], at: usize) -> usize
    requires { at + 20 ≤ length output.old }
    ensures { (result ≡ at + length (decimal n)) × (output.new ≡ placed at (decimal n) output.old) }
{
    if n < 10 {
        output[at] = b'0' + n as u8;
        return at + 1;
    }
    let mut digits = [0u8; 20];
    let count = io::decimal(n as u64, &mut digits);
    let end = at + count;
    output[at..end].copy_from_slice(&digits[..count]);
    end
}

// A space and a number: at most 21 bytes.
pub fn put_field(n: usize, output: &mut [u8], at: usize) -> usize
    ensures { Puts 21 (field n) at output.old result output.new }
{
    if output.len().saturating_sub(at) < 21 {
        return at;
    }
    output[at] = b' ';
    put_number(n, output, at + 1)
}

// A line: a letter, each of the numbers behind a space, and a line feed.
pub fn put_line(letter: u8, numbers: &[usize], output: &mut [u8], at: usize) -> usize
    ensures { Puts (2 + 21 * length numbers.now) (numbers_line letter numbers.now) at output.old result output.new }
{
    let room = output.len().saturating_sub(at);
    if room < 2 || (room - 2) / 21 < numbers.len() {
        return at;
    }
    let mut end = put_byte(letter, output, at);
    for n in numbers {
        end = put_field(*n, output, end);
    }
    put_byte(b'\n', output, end)
}

// The line of a refusal: R, its number and its place.
pub fn put_refusal(f: Refusal, output: &mut [u8], at: usize) -> usize
    ensures { Puts 44 (line (Err f)) at output.old result output.new }
{
    put_line(b'R', &[usize::from(f.number), f.place], output, at)
}
