// The rule at a place: whether it is an allow rule, whether it is live, and where the next one stands.
ghost use Rattle.std.specs.Prelude.{◌≡◌, true, ◌+◌, get_or};
ghost use Rattle.decide.specs.Inner.Parts.{RuleHere};
ghost use Rattle.decide.specs.Inner.Rules.{allow_at, live_at};

use crate::condition::is_on;

// Whether the rule at a place is an allow rule.
pub(crate) fn is_allow(image: &[u8], at: usize) -> bool
    requires { RuleHere image.now at }
    ensures { result ≡ allow_at image.now at }
{
    image[at + 1] == 2
}

// Whether the rule at a place is an allow rule that is on under a switch word.
pub(crate) fn is_live(image: &[u8], at: usize, switches: u32) -> bool
    requires { RuleHere image.now at }
    ensures { result ≡ live_at image.now switches at }
{
    is_allow(image, at) && is_on(switches, image[at + 10])
}

// The place past the rule at a place. One that is known to be an allow rule has 11 bytes, and its length need not be read.
pub(crate) fn past(image: &[u8], at: usize, allow: bool) -> usize
    requires { RuleHere image.now at × (allow ≡ true → get_or image.now at 0 ≡ 11) }
    ensures { result ≡ at + get_or image.now at 0 }
{
    if allow {
        return at + 11;
    }
    at + usize::from(image[at])
}
