// A rule's condition under a query's switch word.
ghost use Rattle.std.specs.Prelude.{◌≡◌, ◌<◌};
ghost use Rattle.decision.specs.Conditions.{is_on};

// Whether a condition is on: 1 always, and 2 + k where switch k of the word is. The switch's number is the byte less 2, counted
// round 64, so that 0 has 62, which is past the switches and off.
pub(crate) fn is_on(switches: u32, condition: u8) -> bool
    requires { condition < 34 }
    ensures { result ≡ is_on switches condition }
{
    if condition == 1 {
        return true;
    }
    let k = (u32::from(condition) + 62) % 64;
    (u64::from(switches) >> k) & 1 == 1
}
