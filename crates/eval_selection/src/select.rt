// `e.field` and has(e.field).
ghost use Rattle.std.specs.Prelude.{◌≡◌};
ghost use Rattle.rooms.specs.Value.{parts_of};
ghost use Rattle.machine.specs.Views.{optional_in};
ghost use Rattle.machine.specs.Selection.{select_in_none, select_in_present, select_plain, select_field};
ghost use Rattle.eval_outcomes.specs.Gives.{GivesCells};

use crate::after_lookup::{select_in_container, select_in_map};
use crate::lookups::look_up;
use eval_outcomes::outcomes::{Optional, no_overload, optional_of, truth_out};
use machine::outcome::{Error, Outcome, Used};
use rooms::memory::Inputs;
use rooms::value::{Parts, Value, parts_of};
use rooms_cells::cell_at;

fn select_in_none(test: bool, used: Used) -> Outcome
    ensures { result ≡ select_in_none test used }
{
    if test {
        truth_out(false, used)
    } else {
        Outcome::Value(Value::OptionalNone, used)
    }
}

// In what a present Optional holds: a List or a Map is looked up, anything else has no such key.
fn select_in_present(
    inputs: &Inputs,
    cells: &mut [u64],
    text: &[u8],
    limit: usize,
    test: bool,
    container: Value,
    field: Value,
    at: usize,
    used: Used,
) -> Outcome
    ensures { GivesCells result inputs.now text.now cells.old cells.new (λ r. select_in_present limit at test field container (parts_of container) used r) }
{
    match parts_of(container) {
        Parts::Elements(_) | Parts::Entries(_) => {
            let found = look_up(&inputs.view(cells, text), limit, container, field, at, used);
            select_in_container(cells, test, found)
        }
        _ => Outcome::Error(Error::NoSuchKey, at, used),
    }
}

// What has no parts: on none a select gives none and a test false; on anything else there is no overload.
fn select_plain(test: bool, value: Value, at: usize, used: Used) -> Outcome
    ensures { result ≡ select_plain at test (optional_in value) used }
{
    match optional_of(value) {
        Optional::None => select_in_none(test, used),
        _ => no_overload(at, used),
    }
}

// `e.field` and, if `test`, has(e.field).
pub fn select_field(
    inputs: &Inputs,
    cells: &mut [u64],
    text: &[u8],
    limit: usize,
    test: bool,
    container: Value,
    field: Value,
    at: usize,
    used: Used,
) -> Outcome
    ensures { GivesCells result inputs.now text.now cells.old cells.new (λ r. select_field limit at test field container used r) }
{
    match parts_of(container) {
        Parts::Elements(_) => no_overload(at, used),
        Parts::Entries(_) => {
            let found = look_up(&inputs.view(cells, text), limit, container, field, at, used);
            select_in_map(test, found)
        }
        Parts::Present(space, cell) => {
            let part = cell_at(&inputs.view(cells, text), space, cell as usize);
            select_in_present(inputs, cells, text, limit, test, part, field, at, used)
        }
        Parts::Nothing => select_plain(test, container, at, used),
    }
}
