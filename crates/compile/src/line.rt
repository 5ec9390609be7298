// The line of a refused row.
ghost use Rattle.std.specs.Prelude.{◌≤◌, length};
ghost use Rattle.lines.specs.Compiled.{row_line};
ghost use Rattle.streams.specs.Put.{Front};

use lines::RowRefusal;
use streams::put_line;

// Puts the line at the front of the output, and tells how many bytes it has: at most 65, for a letter, three numbers of at
// most 20 digits with their spaces, and a line feed.
pub(crate) fn put_row_line(f: RowRefusal, output: &mut [u8]) -> usize
    requires { 65 ≤ length output.old }
    ensures { Front output.new result (row_line f) }
{
    put_line(b'R', &[usize::from(f.number), f.place, f.row], output, 0)
}
