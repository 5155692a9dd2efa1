// `!` and not-strictly-false, from what their operand gave.
ghost use Rattle.std.specs.Prelude.{◌≡◌};
ghost use Rattle.machine.specs.Views.{bool_in};
ghost use Rattle.machine.specs.Logic.{not_out, bool_or_true, not_strictly_false};

use eval_outcomes::outcomes::{no_overload, truth_of, truth_out};
use machine::outcome::{Outcome, Used};
use rooms::value::Value;

pub fn not(v: Value, at: usize, used: Used) -> Outcome
    ensures { result ≡ not_out at used (bool_in v) }
{
    let Some(truth) = truth_of(v) else {
        return no_overload(at, used);
    };
    truth_out(!truth, used)
}

// The Bool, else true.
fn bool_or_true(v: Value, used: Used) -> Outcome
    ensures { result ≡ bool_or_true used (bool_in v) }
{
    truth_out(truth_of(v).unwrap_or(true), used)
}

pub fn not_strictly_false(operand: Outcome) -> Outcome
    ensures { result ≡ not_strictly_false operand }
{
    match operand {
        Outcome::Value(v, used) => bool_or_true(v, used),
        Outcome::Error(_, _, used) => truth_out(true, used),
        Outcome::Exhausted(limit, used) => Outcome::Exhausted(limit, used),
    }
}
