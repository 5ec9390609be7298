// The types of deciding. Their meaning is in specs/, and no code is here.
#![tactic(auto)]

use format::Refusal;

// A source type, a destination type, a class, an action, and a word of 32 switches.
#[derive(Clone, Copy, Debug, PartialEq, Eq)]
pub struct Query {
    pub source: u16,
    pub dest: u16,
    pub class: u16,
    pub action: u16,
    pub switches: u32,
}

// How near a rule came to a query that none covers: the steps that it passes, and its number.
#[derive(Clone, Copy, Debug, PartialEq, Eq)]
pub struct Near {
    pub steps: usize,
    pub rule: usize,
}

// The nearest rule, if there is a rule at all.
pub type Nearest = Option<Near>;

// What an accepted policy decides: how near a rule came; the covering rule; that rule and the constraint that fails.
#[derive(Clone, Copy, Debug, PartialEq, Eq)]
pub enum Decision {
    NotPermitted(Nearest),
    Permitted(usize),
    UnKnown(usize, usize),
}

// What a query is answered: the decision, or the refusal.
pub type Answer = Result<Decision, Refusal>;
