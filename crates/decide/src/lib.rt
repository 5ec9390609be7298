// Deciding queries, in one call with the check: one query, or many on one policy.
#![tactic(auto)]

mod word; // word.rt: numbers in bytes
mod policy; // policy.rt: an accepted policy, as the code reads it
mod types; // types.rt: where the members of a type lie in the image
mod marks; // marks.rt: sets as 1,024 marks, and the members of a type against them
mod halves; // halves.rt: whether a number is among members that rise
mod within; // within.rt: whether a type of the query is within the members of a group
mod kept; // kept.rt: the same for the type in a field, with what is found of a group kept
mod sets; // sets.rt: the sets of types, as marks
mod condition; // condition.rt: whether a rule's condition is on under a switch word
mod rules; // rules.rt: the rule at a place
mod predicates; // predicates.rt: rules that reach an argument, and what a roster and a companion ask of their sources
mod separation; // separation.rt: what a separation asks of them
mod cover; // cover.rt: the lowest rule that covers a query
mod passes; // passes.rt: how many steps a rule passes
mod nearest; // nearest.rt: the rule that came nearest to a query that none covers
mod verdicts; // verdicts.rt: what is found of constraints, kept under two words
mod constraint; // constraint.rt: whether a constraint fails, and the lowest that does
mod engine; // engine.rt: the decision on an image and a query
mod rows; // rows.rt: many queries at once
mod steps; // steps.rt: what a run begins with, and each of its rows
mod batch; // batch.rt: a run of queries, and what it comes to

pub use batch::{run, run_numbers};
pub use engine::decide;
pub use rows::decide_all;
