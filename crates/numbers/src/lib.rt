// An answer as a number of four 16-bit parts, the highest first. include/mungaite.h has the table.
#![tactic(auto)]

ghost use Rattle.std.specs.Prelude.{◌≡◌};
ghost use Rattle.decision.specs.Numbers.{parts_of, refusal_code, nearest_code, decision_code};
ghost use Rattle.runs.specs.Numbers.{run_code};

use decision::{Answer, Decision, Nearest};
use format::Refusal;
use runs::Run;

// The number whose parts are 0, a kind, and two more, each in its low 16 bits.
#[tactic(auto, unfolding(decision::specs::Numbers::parts_of))]
pub fn parts(kind: u16, high: usize, low: usize) -> u64
    ensures { result ≡ parts_of kind high low }
{
    u64::from(kind) * 4294967296 + (high % 65536 * 65536 + low % 65536) as u64
}

#[tactic(auto, unfolding(decision::specs::Numbers::refusal_code))]
pub fn refused(f: Refusal) -> u64
    ensures { result ≡ refusal_code f }
{
    parts(2, usize::from(f.number), f.place)
}

// How near a rule came: no rule has the number 65535, which says that there are no rules.
fn denied(nearest: Nearest) -> u64
    ensures { result ≡ nearest_code nearest }
{
    match nearest {
        None => parts(0, 0, 65535),
        Some(near) => parts(0, near.steps, near.rule),
    }
}

pub fn number(answer: Answer) -> u64
    ensures { result ≡ decision_code answer }
{
    match answer {
        Ok(Decision::NotPermitted(nearest)) => denied(nearest),
        Ok(Decision::Permitted(r)) => parts(1, 0, r),
        Ok(Decision::UnKnown(r, c)) => parts(3, r, c),
        Err(f) => refused(f),
    }
}

// Of a run: fit, the first row that is not Permitted, or the refusal.
pub fn run_number(run: Run) -> u64
    ensures { result ≡ run_code run }
{
    match run {
        Ok(None) => parts(1, 0, 0),
        Ok(Some(n)) => parts(0, 0, n),
        Err(f) => refused(f),
    }
}
