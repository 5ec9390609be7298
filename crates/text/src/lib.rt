// The types of policies as text. Their meaning is in specs/, and no code is here.
#![tactic(auto)]

// What a word of a row stands for: a member of a group, a type (a basic one or a group), a class or an action, a
// predicate, a condition.
#[derive(Clone, Copy, Debug, PartialEq, Eq)]
pub enum Field {
    Member,
    AnyType,
    Number,
    Predicate,
    Condition,
}
