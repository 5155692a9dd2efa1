// A present Optional is made here.
ghost use Rattle.machine.specs.Outcomes.{present};
ghost use Rattle.eval_outcomes.specs.Gives.{GivesCellsAlone};

use eval_outcomes::outcomes::{out_of_cells, with_cells};
use machine::outcome::{Limit, Outcome, Used};
use rooms::value::{CellSpace, DEEPEST, Value};

// A present Optional: its cell, then its nesting.
pub fn present(cells: &mut [u64], v: Value, used: Used) -> Outcome
    ensures { GivesCellsAlone result cells.old cells.new (λ r. present v used r) }
{
    let cell = used.cells;
    let Some(end) = rooms_taking::take_cells(cells, cell, 1) else {
        return out_of_cells(used);
    };
    rooms_cells::write_cell(cells, cell, v);
    let more = with_cells(used, end);
    let nesting = rooms::value::nesting_of(v);
    if nesting < DEEPEST {
        Outcome::Value(
            Value::OptionalOf(nesting + 1, CellSpace::Evaluation, cell as u16),
            more,
        )
    } else {
        Outcome::Exhausted(Limit::Nesting, more)
    }
}
