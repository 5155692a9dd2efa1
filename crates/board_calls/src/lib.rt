// The calls for callers in C and Rust, but for evaluation, over words that the caller holds.
#![tactic(auto)]

// What goes in: a table checked, a state emptied, a binding brought in.
pub mod intake;
// What comes out: a value and its parts, read off two words.
pub mod readout;
