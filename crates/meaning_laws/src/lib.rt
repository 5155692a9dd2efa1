#![tactic(auto)]

// The theorems on the definition of evaluation. There is no code here.
