// Look-ups in lists and maps.
ghost use Rattle.std.specs.Prelude.{◌≡◌};
ghost use Rattle.rooms.specs.Memory.{rooms_seen};
ghost use Rattle.rooms.specs.Rooms.{cell_at};
ghost use Rattle.rooms_text.specs.Sizes.{position_of};
ghost use Rattle.machine.specs.Comparison.{on_found};
ghost use Rattle.machine.specs.Selection.{element_out, look_up};

use eval_outcomes::outcomes::{no_overload, out_of_steps, with_steps};
use machine::outcome::{Error, Outcome, Used};
use rooms::memory::View;
use rooms::value::{CellSpace, Parts, Row, Value, is_key, parts_of};
use rooms_cells::cell_at;
use rooms_comparison::lookup::{Found, find};
use rooms_text::sizes::{Position, position_in};

fn element(view: &View, row: Row, index: Value, at: usize, used: Used) -> Outcome
    ensures { result ≡ element_out at (rooms_seen view.now) row.space row.first used (position_of index row.length) }
{
    match position_in(index, row.length) {
        Position::At(i) => Outcome::Value(cell_at(view, row.space, (row.first as usize) + i), used),
        Position::Outside => Outcome::Error(Error::IndexOutOfBounds, at, used),
        Position::Unsuited => no_overload(at, used),
    }
}

fn found_value(view: &View, space: CellSpace, found: Found, at: usize, used: Used) -> Outcome
    ensures { result ≡ on_found found used (λ c w. Outcome.Value (cell_at (rooms_seen view.now) space c) w) (λ w. Outcome.Error Error.NoSuchKey at w) }
{
    match found {
        Found::At(cell, steps) => Outcome::Value(
            cell_at(view, space, cell),
            with_steps(used, steps),
        ),
        Found::Missing(steps) => Outcome::Error(Error::NoSuchKey, at, with_steps(used, steps)),
        Found::Out(steps) => out_of_steps(with_steps(used, steps)),
    }
}

// The value in a container at an index or a key. Only what may be a key is looked for.
pub fn look_up(
    view: &View,
    limit: usize,
    container: Value,
    probe: Value,
    at: usize,
    used: Used,
) -> Outcome
    ensures { result ≡ look_up limit at (rooms_seen view.now) container probe used }
{
    match parts_of(container) {
        Parts::Elements(row) => element(view, row, probe, at, used),
        Parts::Entries(row) if is_key(probe) => {
            let found = find(view, limit, probe, row, used.steps);
            found_value(view, row.space, found, at, used)
        }
        _ => no_overload(at, used),
    }
}
