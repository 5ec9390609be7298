// An image that was checked, and an accepted policy, as the code that decides on it reads them.
ghost use Rattle.decide.specs.Inner.Parts.{Ready, Surveyed};

use format::{Refusal, Starts};

// An image, and what `survey` gave: the places of its groups, and where its sections start, or the refusal.
#[derive(Clone, Copy)]
pub(crate) struct Survey<'a> {
    pub image: &'a [u8],
    pub groups: &'a [u16; 256],
    pub sections: Result<Starts, Refusal>,
    ghost surveyed: { Surveyed image.now groups.now sections },
}

// An image that the check accepts, the places of its groups, and where its sections start.
#[derive(Clone, Copy)]
pub(crate) struct Policy<'a> {
    pub image: &'a [u8],
    pub groups: &'a [u16; 256],
    pub starts: Starts,
    ghost ready: { Ready image.now groups.now starts },
}
