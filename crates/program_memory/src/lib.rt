// The memory that programs lend to an evaluation: what it holds before a run, and what it must hold after one.
#![tactic(auto)]

// Whether lent memory is as it must be after a run.
pub mod after_run;
// How much of lent memory a count names, and what it is filled with before a run.
pub mod before_run;
