// A record goes into an image: what follows moves up, and the numbers grow.
ghost use Rattle.std.specs.Prelude.{◌≡◌};
ghost use Rattle.format.specs.Format.{count_place};
ghost use Rattle.extension.specs.Inner.Splice.{inserted};
ghost use Rattle.extend.specs.Inner.Moves.{Fits};

use crate::plan::{Slot, count_place};
use crate::word::put_word;
use format::header;

// A record goes into its slot, and the length field and a count grow.
pub(crate) fn insert(buffer: &mut [u8], part: &[u8], slot: Slot)
    requires { Fits buffer.old part.now slot }
    ensures { buffer.new ≡ inserted buffer.old part.now slot.at slot.size (count_place slot.section) slot.count }
{
    let by = part.len();
    let at = slot.at;
    buffer.copy_within(at..slot.size, at + by);
    buffer[at..at + by].copy_from_slice(part);
    put_word(buffer, header::LENGTH_AT, slot.size + by);
    put_word(buffer, count_place(slot.section), slot.count + 1);
}
