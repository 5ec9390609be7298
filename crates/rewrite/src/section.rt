// The records of a section that are marked: they stay as they are.
ghost use Rattle.std.specs.Prelude.{◌≡◌, ◌+◌, ◌≤◌, length};
ghost use Rattle.rewrite.specs.Inner.Put.{Wrote};
ghost use Rattle.rewrite.specs.Inner.Kept.{kept_of, Lie};

use crate::put::copy;

// The length of those of the records whose mark is set. The records may go on past the marks.
#[tactic(auto, using(crate::proofs::KeptLaws::marks))]
pub(crate) fn kept_length(records: &[u8], marks: &[bool]) -> usize
    requires { Lie 1 records.now (length marks.now) }
    ensures { result ≡ length (kept_of records.now marks.now) }
{
    let mut total: usize = 0;
    let mut rest = records;
    for stays in marks {
        let (first, others) = rest.split_at(usize::from(rest[0]));
        rest = others;
        if *stays {
            total += first.len();
        }
    }
    total
}

// Those records go to a place of a buffer, one after the other; the answer is the place past them.
#[tactic(auto, using(crate::proofs::KeptLaws::marks))]
pub(crate) fn put_kept(buffer: &mut [u8], at: usize, records: &[u8], marks: &[bool]) -> usize
    requires { Lie 1 records.now (length marks.now)
        × (at + length (kept_of records.now marks.now) ≤ length buffer.old) }
    ensures { Wrote buffer.old buffer.new at result (kept_of records.now marks.now) }
{
    let mut next = at;
    let mut rest = records;
    for stays in marks {
        let (first, others) = rest.split_at(usize::from(rest[0]));
        rest = others;
        if *stays {
            next = copy(buffer, next, first);
        }
    }
    next
}
