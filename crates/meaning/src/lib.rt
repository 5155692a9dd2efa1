// What a rule means is said in specs/ alone. The code is the type of refusals, which the check of a table and the definition share.
#![tactic(auto)]

pub mod refusal;
