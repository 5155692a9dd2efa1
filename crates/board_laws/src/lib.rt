#![tactic(auto)]

// The words of a state and the calls over it: the theorems that tie them to the meaning. There is no code here.
