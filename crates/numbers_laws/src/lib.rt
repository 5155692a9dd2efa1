#![tactic(auto)]

// Theorems on numbers: their order, what division leaves, and that Doubles are rounded once and to nearest. There is no code here.
