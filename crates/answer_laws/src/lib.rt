#![tactic(auto)]

// What is proved of the definition's answers, carried to what `evaluate` answers: the theorems. There is no code here.
