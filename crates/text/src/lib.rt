// Texts as bytes: their order and equality, and UTF-8. A text is a slice of bytes, of which nothing is asked.
#![tactic(auto)]

// Two texts compared.
pub mod bytes;
// One sequence of UTF-8.
pub mod sequences;
// Whether a text is UTF-8, and how many code points it holds.
pub mod utf8;
