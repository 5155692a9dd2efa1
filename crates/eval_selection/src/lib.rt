// Look-ups in lists and maps: `e.field`, has(e.field), `e[i]`, `e[?i]` and `e.?field`.
#![tactic(auto)]

// What becomes of a look-up: an Optional, a test, or what was found.
pub mod after_lookup;
// `e[i]`, `e[?i]` and `e.?field`.
pub mod indexing;
// The look-up itself.
mod lookups;
// `e.field` and has(e.field).
pub mod select;
