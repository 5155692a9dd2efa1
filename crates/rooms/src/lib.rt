// Values in lent memory: what a value is, where its parts may lie, and what the names stand for. Cells are read and written in rooms_cells.
#![tactic(auto)]

// The memory of a run, read or written.
pub mod memory;
pub mod scope;
pub mod value;
