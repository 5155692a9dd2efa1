// `+` on lists: both are copied, one after the other, to the end of the room.
ghost use Rattle.rooms.specs.Value.{parts_of};
ghost use Rattle.machine.specs.Numbers.{both_lists, list_sum};
ghost use Rattle.eval_outcomes.specs.Gives.{Gives};
ghost use Rattle.eval_arithmetic.specs.ListSums.{sum_parts};

use eval_outcomes::outcomes::{no_overload, out_of_cells, with_cells};
use machine::outcome::{Outcome, Used};
use rooms::memory::Lent;
use rooms::value::{CellSpace, Parts, Row, Value, nesting_of, parts_of};
use rooms_taking::copying::copy_cells;
use rooms_taking::take_cells;

// The sum nests as deep as the deeper list, so its nesting needs no test.
fn join_lists(lent: &mut Lent, deep: u8, row: Row, other: Row, used: Used) -> Outcome
    ensures { Gives result lent.old lent.new (λ r. both_lists deep row.space row.first row.length other.space other.first other.length used r) }
{
    let base = used.cells;
    let all = (row.length as usize) + (other.length as usize);
    let Some(end) = take_cells(lent.cells, base, all) else {
        return out_of_cells(used);
    };
    copy_cells(lent, row, base);
    copy_cells(lent, other, base + (row.length as usize));
    let sum = Row {
        space: CellSpace::Evaluation,
        first: base as u16,
        length: all as u16,
    };
    Outcome::Value(Value::List(deep, sum), with_cells(used, end))
}

fn list_sum(lent: &mut Lent, deep: u8, row: Row, right: Value, at: usize, used: Used) -> Outcome
    ensures { Gives result lent.old lent.new (λ r. list_sum at deep row.space row.first row.length (parts_of right) used r) }
{
    match parts_of(right) {
        Parts::Elements(other) => join_lists(lent, deep, row, other, used),
        _ => no_overload(at, used),
    }
}

pub fn sum_parts(lent: &mut Lent, left: Value, right: Value, at: usize, used: Used) -> Outcome
    ensures { Gives result lent.old lent.new (λ r. sum_parts at left right (parts_of left) used r) }
{
    let deep = nesting_of(left).max(nesting_of(right));
    match parts_of(left) {
        Parts::Elements(row) => list_sum(lent, deep, row, right, at, used),
        _ => no_overload(at, used),
    }
}
