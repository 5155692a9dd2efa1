#![tactic(auto)]

// Theorems on binding rooms: a binding brought in is what the definition brings in; a sound room holds well-formed values, and an unsound one's
// place is its first bad cell. There is no code here.
