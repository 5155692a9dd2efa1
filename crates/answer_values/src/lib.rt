// What a caller reads off a value. Every reader takes any value; that the readers show all of it is proved in proofs/Showing.
#![tactic(auto)]

// The elements of a List, and what an Optional holds.
pub mod elements;
// The keys and values of a Map.
pub mod entries;
// The kind of a value, and a Bool.
pub mod kinds;
// The number of a value.
pub mod numeric;
// Where a text lies, and how many parts there are.
pub mod spans_and_counts;
