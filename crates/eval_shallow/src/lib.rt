// Shallow records: records of one operand or two whose literals and names stand at most two levels down. They are evaluated with the slots that
// they read and without a scope, since a call that takes a scope copies it.
#![tactic(auto)]

// Records whose operands are all literals and names.
mod one_level;
// Any shallow record, a literal or a name among them.
pub mod shallow;
// List records of one shallow element.
pub mod single_lists;
// The slots that shallow records read.
pub mod slots;
// Records whose operands are literals, names and records of those.
mod two_levels;
