// Where things stand in a node table, and readers for them. All that depends on the width of a word stands in `words`.
#![tactic(auto)]

// The fields of a record, a reader for each shape of body.
pub mod fields;
// The kinds of records.
pub mod kind;
// The numbers of flags and names, operators and functions.
pub mod kinds;
// Numbers of 8 bytes: the literals Int, Uint and Double.
pub mod number_literals;
// The kind of a record, its end and its first operand.
pub mod outline;
// Words, and heads of records.
pub mod words;
