// Twin groups: which groups are alike, found by a key, so that records are compared only where it agrees.
ghost use Rattle.std.specs.Prelude.{◌≡◌, ◌==◌, ◌&&◌, true, fold, [], ◌≤◌, ◌<◌, length, get_or, set, Some, None};
ghost use Rattle.std.specs.List.{zip};
ghost use Rattle.std.specs.Option.{ForSome};
ghost use Rattle.format.specs.declared.Section.TheVariants.{Groups};
ghost use Rattle.format.specs.Format.{count_of};
ghost use Rattle.format.specs.Policy.{policy_of};
ghost use Rattle.format.specs.Twins.{same_bytes, twin_fault};
ghost use Rattle.format.specs.Answers.{outcome};
ghost use Rattle.image.specs.Inner.Alike.{key_of, Placed, Filed, Looks, Found, settled_slot, Fills, FirstOff};

use crate::word::word_in;
use format::{Cause, Refusal, header};

// Whether bytes are the same as others, one by one. None ends the walk, so that many are compared at a time.
fn all_same(bytes: &[u8], others: &[u8]) -> bool
    ensures { result ≡ fold (λ same p. same && (p.0 == p.1)) true (zip bytes.now others.now) }
{
    bytes
        .iter()
        .zip(others)
        .fold(true, |same, (byte, other)| same & (byte == other))
}

// Whether two records have the same bytes; most that have not differ in the first member. With `a == b` as the last test a check of
// 256 groups that are much alike takes a tenth longer.
#[tactic(auto, using(crate::proofs::AlikeLaws::same_apart, crate::proofs::AlikeLaws::same_byte))]
pub fn same_record(a: &[u8], b: &[u8]) -> bool
    ensures { result ≡ same_bytes a.now b.now }
{
    if a.len() != b.len() {
        return false;
    }
    if 4 <= a.len() && a[3] != b[3] {
        return false;
    }
    all_same(a, b)
}

// The key of a group's record: alike records have one key.
#[tactic(auto, unfolding(crate::specs::Inner::Alike::key_of))]
fn key_of(part: &[u8]) -> usize
    requires { (4 ≤ length part.now) × (length part.now < 256) }
    ensures { (result ≡ key_of part.now) × (result < 1024) }
{
    let n = part.len();
    let front = word_in(part, 2) * 5 + word_in(part, n / 4 * 2) * 9;
    let end = word_in(part, n - 4) * 7 + word_in(part, n - 2) * 3;
    (front + end + n) % 1024
}

// The record of a group.
fn group_at<'a>(image: &'a [u8], places: &[u16; 256], g: usize) -> &'a [u8]
    requires { Placed image.now places.now (count_of image.now Groups) × (g < count_of image.now Groups) }
    ensures { result.now ≡ get_or (policy_of image.now).groups g [] }
{
    let from = usize::from(places[g]);
    let to = from + usize::from(image[from]);
    &image[from..to]
}

// An earlier group that is alike to group k, whose record is handed. From the last group with the key to the first.
fn find_alike(
    image: &[u8],
    places: &[u16; 256],
    heads: &[Option<u8>; 1024],
    before: &[Option<u8>; 256],
    k: usize,
    key: usize,
    part: &[u8],
) -> Option<usize>
    requires { Looks image.now places.now heads.now before.now k key
        × (part.now ≡ get_or (policy_of image.now).groups k []) }
    ensures { Found (policy_of image.now).groups k result }
{
    let mut next = heads[key];
    while let Some(g) = next {
        let g = usize::from(g);
        if same_record(part, group_at(image, places, g)) {
            return Some(g);
        }
        next = before[g];
    }
    None
}

// The first group alike to group k, by an earlier one that is.
fn settle(alike: &mut [u16], earlier: Option<usize>, k: usize)
    requires { ForSome earlier (λ g. g < length alike.old) × (k < length alike.old) × (k < 256) }
    ensures { alike.new ≡ set alike.old k (settled_slot alike.old earlier k) }
{
    alike[k] = match earlier {
        Some(g) => alike[g],
        None => k as u16,
    };
}

// Group k is put in front of the others that have its key.
fn file(heads: &mut [Option<u8>; 1024], before: &mut [Option<u8>; 256], key: usize, k: usize)
    requires { (key < 1024) × (k < 256) }
    ensures { (heads.new ≡ set heads.old key (Some k))
        × (before.new ≡ set before.old k (get_or heads.old key None)) }
{
    before[k] = heads[key];
    heads[key] = Some(k as u8);
}

// The first alike group of each group.
pub(crate) fn fill_alike(image: &[u8], places: &[u16; 256], count: usize, alike: &mut [u16])
    requires { Placed image.now places.now count × (256 ≤ length alike.old) }
    ensures { Fills (policy_of image.now).groups count alike.old alike.new }
{
    let mut heads = [None; 1024];
    let mut before = [None; 256];
    // k is the number of the group
    for k in 0..count {
        let part = group_at(image, places, k);
        let key = key_of(part);
        let earlier = find_alike(image, places, &heads, &before, k, key, part);
        settle(alike, earlier, k);
        file(&mut heads, &mut before, key, k);
    }
}

// The first group that an earlier one is alike to.
fn first_twin(alike: &[u16]) -> Option<usize>
    ensures { FirstOff alike.now result }
{
    alike
        .iter()
        .enumerate()
        .position(|(k, first)| usize::from(*first) != k)
}

// Refusal 19.
#[tactic(auto, using(crate::proofs::AlikeLaws::twins_few, format::proofs::ByCase::count_groups))]
pub(crate) fn check_twins(image: &[u8], places: &[u16; 256]) -> Result<(), Refusal>
    requires { Placed image.now places.now (count_of image.now Groups) }
    ensures { result ≡ outcome (twin_fault image.now) tt }
{
    let count = word_in(image, header::GROUPS_AT);
    if count < 2 {
        return Ok(());
    }
    let mut alike = [0u16; 256];
    fill_alike(image, places, count, &mut alike);
    if let Some(first) = first_twin(&alike[..count]) {
        return Err(Cause::Twin.at(usize::from(places[first])));
    }
    Ok(())
}
