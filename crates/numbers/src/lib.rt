// The numbers of CEL: Int, Uint and Double, their arithmetic, and what their order is. Two numbers are compared in numbers_order.
#![tactic(auto)]

// Double: its 64 bits, and arithmetic.
pub mod double;
// What arithmetic answers where it has no result.
pub mod error;
// Int, an `i64`: its size, and checked arithmetic.
pub mod int;
// A number of any kind.
pub mod order;
// Uint, a `u64`: checked arithmetic.
pub mod uint;
