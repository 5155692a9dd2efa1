// The arithmetic operators on values: `+`, `-`, `*`, `/` and `%`, and unary minus.
#![tactic(auto)]

// `+` on lists.
pub mod list_sum;
// Unary minus.
pub mod minus;
// A number on the left.
mod numeric;
// Every operator of two operands, by what the left one is.
pub mod operations;
// Two Ints, two Uints or two Doubles.
pub mod same_kind;
// `+` of what is no number.
pub mod sums;
// `+` on texts.
pub mod text_sum;
