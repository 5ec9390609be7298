// The type of a run's answer. Its meaning is in specs/, and no code is here.
#![tactic(auto)]

use format::Refusal;

// What a run of queries comes to: the number of the first row that is not Permitted, if there is one; or the call is refused.
pub type Run = Result<Option<usize>, Refusal>;
