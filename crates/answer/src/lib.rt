// The answer of an evaluation: a value, an error, exhaustion or a refusal.
// Here: what comes back, and how a run ends: what was charged is cleared, unless there is a value. `reasons` has the numbers of errors and limits.
#![tactic(auto)]

pub mod reasons;

ghost use Rattle.std.specs.Prelude.{◌≡◌, min};
ghost use Rattle.meaning.specs.Limits.{most_steps};
ghost use Rattle.machine.specs.Answer.{cells_left, text_left};
ghost use Rattle.answer.specs.Evaluated.{as_answer};

use machine::outcome::{Error, Limit, Outcome, Used};
use meaning::refusal::Refusal;
use rooms::value::Value;
use rooms_taking::{clear_cells, clear_text};

const MOST_STEPS: usize = 1000000;

#[derive(Clone, Copy)]
pub enum Answer {
    Refused(Refusal),
    Value(Value, Used),
    // An error, and the place of the record whose rule gave it.
    Error(Error, usize, Used),
    // The limit that the next charge would pass.
    Exhausted(Limit, Used),
}

// A higher step limit counts as the highest.
pub fn step_limit(steps: usize) -> usize
    ensures { result ≡ min steps most_steps }
{
    steps.min(MOST_STEPS)
}

// The end of a run: after an error or exhaustion what was charged is cleared.
pub fn answered(cells: &mut [u64], text: &mut [u8], outcome: Outcome) -> Answer
    ensures { (result ≡ as_answer outcome) × (cells.new ≡ cells_left outcome cells.old)
        × (text.new ≡ text_left outcome text.old) }
{
    match outcome {
        Outcome::Value(value, used) => Answer::Value(value, used),
        Outcome::Error(error, place, used) => {
            clear_cells(cells, used.cells);
            clear_text(text, used.bytes);
            Answer::Error(error, place, used)
        }
        Outcome::Exhausted(limit, spent) => {
            clear_cells(cells, spent.cells);
            clear_text(text, spent.bytes);
            Answer::Exhausted(limit, spent)
        }
    }
}
