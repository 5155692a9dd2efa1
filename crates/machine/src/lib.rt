// The types of a run's outcome, and of what a comprehension iterates over. The machine, the definition that the evaluator's code equals, is in
// specs/. No functions.
#![tactic(auto)]

pub mod items;
pub mod outcome;
