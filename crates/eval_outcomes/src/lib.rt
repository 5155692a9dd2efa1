// What the rules share: outcomes and what is seen of a value, the operators.
#![tactic(auto)]

pub mod operators;
pub mod outcomes;
