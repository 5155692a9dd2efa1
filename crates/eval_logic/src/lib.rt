// Logic on what operands gave: `||`, `&&`, `!`, not-strictly-false, conditions and guards.
// Here: `||` and `&&` from the left operand's outcome and a right value. A right error is the answer already in `after_both` of `eval_operands`.
// `deciding` says whether one operand decides by itself, `conditions` what a condition or a guard says, and `negation` has `!` and not-strictly-false.
#![tactic(auto)]

pub mod conditions;
pub mod deciding;
pub mod negation;

ghost use Rattle.std.specs.Prelude.{◌≡◌};
ghost use Rattle.machine.specs.Logic.{left_error, both_bools, undecided, logic_right};
ghost use Rattle.eval_outcomes.specs.Seen.{fold_seen};

use crate::deciding::{absorbing, absorbs};
use eval_outcomes::operators::Fold;
use eval_outcomes::outcomes::{no_overload, truth_of, truth_out};
use machine::outcome::{Error, Outcome, Used};
use rooms::value::Value;

// A left error stays the answer; only one that wanted a Bool becomes the error that there is no overload.
fn left_error(error: Error, place: usize, at: usize, used: Used) -> Outcome
    ensures { result ≡ left_error at used error place }
{
    match error {
        Error::BoolWanted => no_overload(at, used),
        _ => Outcome::Error(error, place, used),
    }
}

fn both_bools(left: Option<bool>, right: Option<bool>, at: usize, used: Used) -> Outcome
    ensures { result ≡ both_bools at used left right }
{
    match (left, right) {
        (Some(_), Some(truth)) => truth_out(truth, used),
        _ => no_overload(at, used),
    }
}

// The right operand is a value that does not decide.
fn undecided(left: Outcome, right: Option<bool>, at: usize, used: Used) -> Outcome
    ensures { result ≡ undecided at left used right }
{
    match left {
        Outcome::Value(v, _) => both_bools(truth_of(v), right, at, used),
        Outcome::Error(error, place, _) => left_error(error, place, at, used),
        Outcome::Exhausted(limit, _) => Outcome::Exhausted(limit, used),
    }
}

// The left operand did not decide, and the right one is a value.
pub fn logic_right(fold: Fold, left: Outcome, v: Value, at: usize, used: Used) -> Outcome
    ensures { result ≡ logic_right (fold_seen fold) at left v used }
{
    let right = truth_of(v);
    if absorbs(fold, right) {
        truth_out(absorbing(fold), used)
    } else {
        undecided(left, right, at, used)
    }
}
