// `e[i]`, `e[?i]` and `e.?field`.
ghost use Rattle.std.specs.Prelude.{◌≡◌};
ghost use Rattle.machine.specs.Views.{is_string};
ghost use Rattle.machine.specs.Selection.{index, opt_select};
ghost use Rattle.eval_outcomes.specs.Gives.{GivesCells};

use crate::after_lookup::{optionally, perhaps};
use crate::lookups::look_up;
use eval_outcomes::outcomes::{Optional, optional_of};
use machine::outcome::{Error, Outcome, Used};
use rooms::memory::Inputs;
use rooms::value::{Plain, Value, plain_of};
use rooms_cells::cell_at;

// `e[i]` and, if `optional`, `e[?i]`.
pub fn index(
    inputs: &Inputs,
    cells: &mut [u64],
    text: &[u8],
    limit: usize,
    optional: bool,
    container: Value,
    probe: Value,
    at: usize,
    used: Used,
) -> Outcome
    ensures { GivesCells result inputs.now text.now cells.old cells.new (λ r. index limit at optional container probe used r) }
{
    match optional_of(container) {
        Optional::Not => {
            let found = look_up(&inputs.view(cells, text), limit, container, probe, at, used);
            perhaps(cells, optional, found)
        }
        Optional::None => Outcome::Value(Value::OptionalNone, used),
        Optional::Present(space, cell) => {
            let part = cell_at(&inputs.view(cells, text), space, cell as usize);
            let found = look_up(&inputs.view(cells, text), limit, part, probe, at, used);
            optionally(cells, found)
        }
    }
}

fn is_string(value: Value) -> bool
    ensures { result ≡ is_string value }
{
    matches!(plain_of(value), Plain::String(_))
}

// `e.?field`: the field has to be a String.
pub fn optional_select(
    inputs: &Inputs,
    cells: &mut [u64],
    text: &[u8],
    limit: usize,
    container: Value,
    field: Value,
    at: usize,
    used: Used,
) -> Outcome
    ensures { GivesCells result inputs.now text.now cells.old cells.new (λ r. opt_select limit at container field used r) }
{
    if is_string(field) {
        index(inputs, cells, text, limit, true, container, field, at, used)
    } else {
        Outcome::Error(Error::FunctionError, at, used)
    }
}
