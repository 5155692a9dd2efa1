// The functions on Optionals: hasValue, value and orValue. optional.of is `optional_of::present`.
ghost use Rattle.std.specs.Prelude.{◌≡◌};
ghost use Rattle.rooms.specs.Memory.{rooms_seen};
ghost use Rattle.machine.specs.Views.{optional_in};
ghost use Rattle.machine.specs.Calls.{has_value_out, value_out, or_value_out};

use eval_outcomes::outcomes::{Optional, no_overload, optional_of, truth_out};
use machine::outcome::{Error, Outcome, Used};
use rooms::memory::View;
use rooms::value::Value;
use rooms_cells::cell_at;

pub fn has_value(v: Value, at: usize, used: Used) -> Outcome
    ensures { result ≡ has_value_out at used (optional_in v) }
{
    match optional_of(v) {
        Optional::Not => no_overload(at, used),
        Optional::None => truth_out(false, used),
        Optional::Present(_, _) => truth_out(true, used),
    }
}

pub fn value(view: &View, v: Value, at: usize, used: Used) -> Outcome
    ensures { result ≡ value_out at used (rooms_seen view.now) (optional_in v) }
{
    match optional_of(v) {
        Optional::Not => no_overload(at, used),
        Optional::None => Outcome::Error(Error::FunctionError, at, used),
        Optional::Present(space, cell) => {
            Outcome::Value(cell_at(view, space, cell as usize), used)
        }
    }
}

// The default was begun first, and is a value.
pub fn or_value(view: &View, default: Value, target: Value, at: usize, used: Used) -> Outcome
    ensures { result ≡ or_value_out at default used (rooms_seen view.now) (optional_in target) }
{
    match optional_of(target) {
        Optional::Not => no_overload(at, used),
        Optional::None => Outcome::Value(default, used),
        Optional::Present(space, cell) => {
            Outcome::Value(cell_at(view, space, cell as usize), used)
        }
    }
}
