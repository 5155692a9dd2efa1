// Values compared where they lie. Equality, `in` and the look-up of a key count the pairs that they compare, and stop at a limit.
#![tactic(auto)]

// Two values with their parts.
pub mod equality;
// `in` a list.
pub mod in_list;
// A key looked up among a map's entries.
pub mod lookup;
// The order of two values.
pub mod ordering;
// What comparing comes to, with the pairs counted.
pub mod pairs;
// Two values without parts.
pub mod plain;
