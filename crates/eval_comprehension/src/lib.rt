// What a comprehension makes of its parts' outcomes. The loop that evaluates the parts is in eval_record.
#![tactic(auto)]

// On the append path: what was collected, and the list of it.
pub mod append_result;
// On the append path: a turn's elements, copied.
pub mod append_turn;
// What a comprehension goes over.
pub mod ranges;
// What becomes of a step: the accumulator, a pending error, or the end.
pub mod steps;
