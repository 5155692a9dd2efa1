// Answers and values as words, as callers in C and Rust read them.
#![tactic(auto)]

// An answer as eight words.
pub mod answers;
// Words laid over the first of a lent slice, and values as two words.
pub mod overlay;
// What a value is by itself, as six words, and the two words of a part.
pub mod shapes;
