// What a condition or a guard says.
ghost use Rattle.std.specs.Prelude.{◌≡◌};
ghost use Rattle.eval_logic.specs.Conditions.{asked_of};

use eval_outcomes::outcomes::truth_of;
use machine::outcome::{Error, Outcome, Used};

// What a condition or a guard says, or the outcome that is the answer instead.
// Three ways: in a Result the Bool and the counts would stand side by side, and every caller would take them apart again.
#[derive(Clone, Copy)]
pub enum Asked {
    Holds(Used),
    Fails(Used),
    Ends(Outcome),
}

// Where the condition is no Bool, the answer is its error or exhaustion, or that a Bool is wanted.
pub fn asks(condition: Outcome, at: usize) -> Asked
    ensures { result ≡ asked_of at condition }
{
    let Outcome::Value(v, used) = condition else {
        return Asked::Ends(condition);
    };
    match truth_of(v) {
        Some(true) => Asked::Holds(used),
        Some(false) => Asked::Fails(used),
        None => Asked::Ends(Outcome::Error(Error::BoolWanted, at, used)),
    }
}
