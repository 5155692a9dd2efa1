// The append path of a comprehension: a turn's elements are copied to cells of their own.
ghost use Rattle.rooms.specs.Value.{parts_of};
ghost use Rattle.eval_outcomes.specs.Gives.{Gives};
ghost use Rattle.eval_comprehension.specs.AppendTurn.{gather_elements, gather_parts, gather_of};

use crate::append_result::Run;
use eval_outcomes::outcomes::{out_of_cells, with_cells};
use machine::outcome::{Outcome, Used};
use rooms::memory::Lent;
use rooms::value::{Parts, Row, Value, nesting_of, parts_of};
use rooms_taking::copying::copy_cells;
use rooms_taking::take_cells;

// A turn's elements: their cells, the nesting of their list, and what is used with them.
#[derive(Clone, Copy)]
pub struct Turn {
    pub run: Run,
    pub nesting: u8,
    pub used: Used,
}

// The elements of an items list are copied at once.
fn gather_elements(lent: &mut Lent, row: Row, nesting: u8, used: Used) -> Result<Turn, Outcome>
    ensures { Gives result lent.old lent.new (λ r. gather_elements row nesting used r) }
{
    let base = used.cells;
    let Some(end) = take_cells(lent.cells, base, row.length as usize) else {
        return Err(out_of_cells(used));
    };
    copy_cells(lent, row, base);
    let run = Run {
        first: base as u16,
        length: row.length,
    };
    Ok(Turn {
        run,
        nesting,
        used: with_cells(used, end),
    })
}

// An items list is a List.
fn gather_value(lent: &mut Lent, v: Value, used: Used) -> Result<Turn, Outcome>
    ensures { Gives result lent.old lent.new (λ r. gather_parts v (parts_of v) used r) }
{
    match parts_of(v) {
        Parts::Elements(row) => gather_elements(lent, row, nesting_of(v), used),
        _ => Err(Outcome::Value(v, used)),
    }
}

pub fn gather_items(lent: &mut Lent, items: Outcome) -> Result<Turn, Outcome>
    ensures { Gives result lent.old lent.new (λ r. gather_of items r) }
{
    let Outcome::Value(v, used) = items else {
        return Err(items);
    };
    gather_value(lent, v, used)
}
