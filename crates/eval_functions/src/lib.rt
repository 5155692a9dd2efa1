// The functions that a rule can call: size, and those on Optionals.
#![tactic(auto)]

// optional.of: a present Optional is made.
pub mod optional_of;
// hasValue, value and orValue.
pub mod optional_value;
// size.
pub mod size;
