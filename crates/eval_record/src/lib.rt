// The record evaluator and the comprehension loop, which call each other.
#![tactic(auto)]

mod appending;
mod comprehension;
pub mod eval;
mod list_records;
mod map_records;
mod operands;
