// Type fields changed in place: the number of a group is looked up in a table, and all else stays. A group's number is below
// 256, so it is the field's second byte.
ghost use Rattle.std.specs.Prelude.{◌≡◌, ◌+◌, ◌≤◌, ◌<◌, length};
ghost use Rattle.rewrite.specs.Inner.Retype.{new_low, field_at, changed, record_in, records_in};
ghost use Rattle.rewrite.specs.Inner.Kept.{Lie};

use format::header;

// The first two type fields of a record stand side by side: from this place on in a rule,
pub(crate) const IN_RULE: usize = 2;

// and from this one on in a constraint.
pub(crate) const IN_CONSTRAINT: usize = 6;

// The second byte of a type field, changed.
#[tactic(auto, unfolding(crate::specs::Inner::Retype::new_low))]
fn renumbered(to: &[u8; header::MOST_GROUPS], high: u8, low: u8) -> u8
    ensures { result ≡ new_low to.now high low }
{
    if high < 128 {
        low
    } else {
        to[usize::from(low)]
    }
}

// The type field at a place.
#[tactic(auto, unfolding(crate::specs::Inner::Retype::field_at))]
fn retype_field(part: &mut [u8], at: usize, to: &[u8; header::MOST_GROUPS])
    requires { at + 1 < length part.old }
    ensures { part.new ≡ field_at to.now part.old at }
{
    part[at + 1] = renumbered(to, part[at], part[at + 1]);
}

// A list of type fields.
#[tactic(auto, using(crate::proofs::FieldLaws::list_turns))]
fn retype_list(list: &mut [u8], to: &[u8; header::MOST_GROUPS])
    ensures { list.new ≡ changed to.now list.old }
{
    // By place: of what is written through `chunks_exact_mut` a proof knows the length alone.
    for second in (1..list.len()).step_by(2) {
        retype_field(list, second - 1, to);
    }
}

// The type fields of a record: two from the place `first` on, and those behind its eleventh byte. A rule has none there.
#[tactic(auto, using(crate::proofs::FieldLaws::record_ends))]
fn retype_record(part: &mut [u8], first: usize, to: &[u8; header::MOST_GROUPS])
    requires { first + 4 ≤ length part.old }
    ensures { part.new ≡ record_in first to.now part.old }
{
    retype_field(part, first, to);
    retype_field(part, first + 2, to);
    if 11 < part.len() {
        retype_list(&mut part[11..], to);
    }
}

// The type fields of so many records, one after the other. What stands behind them stays.
#[tactic(auto, using(crate::proofs::FieldLaws::records))]
pub(crate) fn retype_records(
    records: &mut [u8],
    count: usize,
    first: usize,
    to: &[u8; header::MOST_GROUPS],
)
    requires { Lie (first + 4) records.old count }
    ensures { records.new ≡ records_in first to.now records.old count }
{
    // By place: with the rest cut off by `split_at_mut` an invariant has no name for what stands before it.
    let mut at = 0;
    for _ in 0..count {
        let end = at + usize::from(records[at]);
        retype_record(&mut records[at..end], first, to);
        at = end;
    }
}
