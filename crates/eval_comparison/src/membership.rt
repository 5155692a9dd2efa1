// `in`: among a list's elements or a map's keys.
ghost use Rattle.std.specs.Prelude.{◌≡◌, true, false};
ghost use Rattle.rooms.specs.Memory.{rooms_seen};
ghost use Rattle.rooms.specs.Value.{parts_of};
ghost use Rattle.machine.specs.Outcomes.{truth_out};
ghost use Rattle.machine.specs.Comparison.{on_found};
ghost use Rattle.machine.specs.Selection.{in_parts};

use crate::from_pairs;
use eval_outcomes::outcomes::{no_overload, out_of_steps, truth_out, with_steps};
use machine::outcome::{Outcome, Used};
use rooms::memory::View;
use rooms::value::{Parts, Value, is_key, parts_of};
use rooms_comparison::in_list::among;
use rooms_comparison::lookup::{Found, find};

fn from_found(found: Found, used: Used) -> Outcome
    ensures { result ≡ on_found found used (λ c u. truth_out true u) (λ u. truth_out false u) }
{
    match found {
        Found::At(_, steps) => truth_out(true, with_steps(used, steps)),
        Found::Missing(steps) => truth_out(false, with_steps(used, steps)),
        Found::Out(steps) => out_of_steps(with_steps(used, steps)),
    }
}

// `in`: among a list's elements or a map's keys.
pub fn is_in(
    view: &View,
    limit: usize,
    value: Value,
    container: Value,
    at: usize,
    used: Used,
) -> Outcome
    ensures { result ≡ in_parts limit at (rooms_seen view.now) value used (parts_of container) }
{
    match parts_of(container) {
        Parts::Elements(row) => from_pairs(among(view, limit, value, row, used.steps), true, used),
        Parts::Entries(row) if is_key(value) => from_found(
            find(view, limit, value, row, used.steps),
            used,
        ),
        _ => no_overload(at, used),
    }
}
