// What a comprehension makes of a step: its accumulator, a pending error, or the end.
ghost use Rattle.std.specs.Prelude.{◌≡◌};
ghost use Rattle.eval_outcomes.specs.Seen.{fold_seen};
ghost use Rattle.eval_comprehension.specs.Steps.{folds_seen, value_step, fold_step, plain_step, step_of};

use eval_logic::deciding::absorbs;
use eval_outcomes::operators::Fold;
use eval_outcomes::outcomes::truth_of;
use machine::outcome::{Error, Outcome, Used};
use rooms::value::Value;

// An error that a later item may still clear, with its place.
pub type Pending = Option<(Error, usize)>;

// What becomes of a step's outcome.
// Three ways, two of which go on: a Result would put an Option of a value and an Option of an error beside each other.
#[derive(Clone, Copy)]
pub enum Step {
    Bind(Value, Used),
    Hold(Pending, Used),
    Ends(Outcome),
}

// A value of a fold's step: it becomes the accumulator, unless an error is pending that it does not clear.
fn value_step(fold: Fold, held: Pending, v: Value, used: Used) -> Step
    ensures { result ≡ value_step (fold_seen fold) held v used }
{
    if held.is_none() {
        return Step::Bind(v, used);
    }
    if absorbs(fold, truth_of(v)) {
        Step::Bind(v, used)
    } else {
        Step::Hold(held, used)
    }
}

fn fold_step(fold: Fold, held: Pending, outcome: Outcome) -> Step
    ensures { result ≡ fold_step (fold_seen fold) held outcome }
{
    match outcome {
        Outcome::Value(v, used) => value_step(fold, held, v, used),
        Outcome::Error(error, place, used) => Step::Hold(Some((error, place)), used),
        Outcome::Exhausted(limit, used) => Step::Ends(Outcome::Exhausted(limit, used)),
    }
}

fn plain_step(outcome: Outcome) -> Step
    ensures { result ≡ plain_step outcome }
{
    match outcome {
        Outcome::Value(v, used) => Step::Bind(v, used),
        _ => Step::Ends(outcome),
    }
}

// A step of `accumulator && ..` or `accumulator || ..` holds errors pending, and no other step does.
pub fn step_of(folds: Option<Fold>, held: Pending, outcome: Outcome) -> Step
    ensures { result ≡ step_of (folds_seen folds) held outcome }
{
    match folds {
        Some(fold) => fold_step(fold, held, outcome),
        None => plain_step(outcome),
    }
}
