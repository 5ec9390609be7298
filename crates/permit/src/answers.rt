// The lines of whole queries, of a refusal, and of what is left of the input.
ghost use Rattle.std.specs.Prelude.{◌*◌, ◌≤◌, length};
ghost use Rattle.format.specs.Check.{Accepted};
ghost use Rattle.lines.specs.Lines.{lines};
ghost use Rattle.lines.specs.Output.{ending};
ghost use Rattle.streams.specs.Put.{Front};

use crate::line::put_line;
use format::Cause;
use streams::put_refusal;

// Puts the lines of the input's whole queries at the front of the output, one behind the other, and tells how many bytes they
// are. All are decided in one call, whose numbers stand in the slots that are lent for them. A line has at most 44 bytes, fewer
// than 4 for each byte of its query.
pub(crate) fn put_answers(
    image: &[u8],
    input: &[u8],
    numbers: &mut [u64],
    output: &mut [u8],
) -> usize
    requires { (Accepted image.now) × (length input.now ≤ 12 * length numbers.old) × (4 * length input.now ≤ length output.old) }
    ensures { Front output.new result (lines image.now input.now) }
{
    let rows = decide::decide_all(image, input, numbers);
    let mut end: usize = 0;
    for number in &numbers[..rows] {
        end = put_line(*number, output, end);
    }
    end
}

// The last line, where the input has ended and these bytes are left as a query.
pub(crate) fn put_ending(left: &[u8], output: &mut [u8]) -> usize
    requires { 44 ≤ length output.old }
    ensures { Front output.new result (ending left.now) }
{
    if left.len() % 12 == 0 {
        return 0;
    }
    put_refusal(Cause::BytesLeft.at(0), output, 0)
}
