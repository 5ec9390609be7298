// Which groups stay, and the new number of each group.
ghost use Rattle.std.specs.Prelude.{◌≡◌, List, ℕ, ◌≤◌, length, take};
ghost use Rattle.rewrite.specs.Inner.Settle.{Alike, Settled};

use format::header;

// The groups of an old image, by their old numbers: the new number of each, and whether it stays. Nothing is on a heap, so the
// tables have room for the most groups, and only as many entries count as there are groups.
#[derive(Drop)]
pub(crate) struct Renumbering {
    pub groups: usize,
    pub to: [u8; header::MOST_GROUPS],
    pub keep: [bool; header::MOST_GROUPS],
    pub kept: usize,
}

impl Renumbering {
    // A mark for each group.
    pub(crate) fn marks(&self) -> &[bool]
        requires { self.now.groups ≤ 256 }
        ensures { result.now ≡ take self.now.groups self.now.keep }
    {
        &self.keep[..self.groups]
    }
}

// Of the groups, each with the first that it is alike to, the first of those that are alike stays.
pub(crate) fn settle(alike: &[u16]) -> Renumbering
    requires { length alike.now ≤ 256 }
    ensures groups { result.groups ≡ length alike.now }
    ensures settled { (gs : List (List ℕ)) → Alike gs (length alike.now) alike.now
        → Settled gs (length alike.now) result.to result.keep result.kept }
{
    let mut to = [0u8; header::MOST_GROUPS];
    let mut keep = [false; header::MOST_GROUPS];
    let mut kept: usize = 0;
    for (g, first) in alike.iter().enumerate() {
        let first = usize::from(*first);
        if first < g {
            to[g] = to[first];
        } else {
            to[g] = kept as u8;
            keep[g] = true;
            kept += 1;
        }
    }
    Renumbering {
        groups: alike.len(),
        to,
        keep,
        kept,
    }
}
