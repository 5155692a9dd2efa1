// A comprehension up to its loop, and the loop. A loop finds out once which slots its operands read.
ghost use Rattle.std.specs.Prelude.{◌≡◌, ◌<◌, get_or};
ghost use Rattle.std.specs.Prelude.{None};
ghost use Rattle.meaning.specs.Kinds.{comprehension_kind};
ghost use Rattle.meaning.specs.Limits.{names};
ghost use Rattle.rooms.specs.Scope.{stored};
ghost use Rattle.table_check.specs.Records.{Sound, expr_of, kind_byte};
ghost use Rattle.machine.specs.Comprehension.{turns};
ghost use Rattle.machine.specs.Machine.{body};
ghost use Rattle.eval_outcomes.specs.Gives.{Gives};
ghost use Rattle.eval_shapes.specs.Comprehensions.{loop_at};

use crate::appending::appends;
use crate::eval::eval;
use crate::operands::{operand, part};
use eval_comprehension::ranges::range_of;
use eval_comprehension::steps::{Pending, Step, step_of};
use eval_logic::conditions::{Asked, asks};
use eval_shallow::shallow::reach_at;
use eval_shapes::comprehensions::{Places, append_path, folds_at, places_at};
use machine::items::Items;
use machine::outcome::{Error, Outcome, Used};
use rooms::memory::Lent;
use rooms::scope::{Scope, Slot};
use rooms::value::Value;
use rooms_cells::cell_at;
use table_layout::outline::{end_at, first_operand};

// Init, then range; then the append path or the turns.
#[cycle(records)]
pub fn comprehend(
    table: &[u8],
    lent: &mut Lent,
    limit: usize,
    at: usize,
    scope: Scope,
    used: Used,
) -> Outcome
    requires { Sound table.now lent.old.literal.now at × (get_or table.now at 0 ≡ kind_byte comprehension_kind) }
    ensures { Gives result lent.old lent.new (λ r. body table.now limit (expr_of table.now lent.old.literal.now at) scope used r) }
{
    let over = first_operand(table, at);
    let init = end_at(table, over);
    let one = eval(table, lent, limit, init, scope, used);
    let Outcome::Value(start, more) = one else {
        return one;
    };
    let two = eval(table, lent, limit, over, scope, more);
    let Outcome::Value(range, spent) = two else {
        return two;
    };
    let Some(items) = range_of(range) else {
        return Outcome::Error(Error::IterableWanted, at, spent);
    };
    let places = places_at(table, lent.literal, at, init);
    match append_path(table, lent.literal, places, start) {
        None => turns(table, lent, limit, at, scope, spent, places, start, items),
        Some(path) => appends(table, lent, limit, at, scope, spent, places, path, items),
    }
}

// The comprehension loop.
#[cycle(records)]
pub fn turns(
    table: &[u8],
    lent: &mut Lent,
    limit: usize,
    at: usize,
    scope: Scope,
    used: Used,
    places: Places,
    start: Value,
    items: Items,
) -> Outcome
    requires { Sound table.now lent.old.literal.now places.condition × Sound table.now lent.old.literal.now places.step × Sound table.now lent.old.literal.now places.result × (places.accumulator < names) × (places.item < names) }
    ensures { Gives result lent.old lent.new (λ r. turns (loop_at table.now lent.old.literal.now limit at places) items.space items.stride items.count items.first None (stored scope places.accumulator start) used r) }
{
    let folds = folds_at(table, lent.literal, places.step, places.accumulator);
    let condition_slots = reach_at(table, lent.literal, places.condition);
    let step_slots = reach_at(table, lent.literal, places.step);
    let mut inner = scope;
    inner.slots[places.accumulator] = Slot { value: start };
    let mut held: Pending = None;
    let mut spent = used;
    let mut cell = items.first as usize;
    let mut left = items.count as usize;
    while 0 < left {
        let test = operand(
            table,
            lent,
            limit,
            places.condition,
            condition_slots,
            &inner,
            spent,
        );
        match asks(test, at) {
            Asked::Ends(outcome) => {
                return outcome;
            }
            // no turn is left
            Asked::Fails(more) => {
                spent = more;
                left = 0;
            }
            Asked::Holds(more) => {
                inner.slots[places.item] = Slot {
                    value: cell_at(&lent.view(), items.space, cell),
                };
                let gives = operand(table, lent, limit, places.step, step_slots, &inner, more);
                cell += items.stride as usize;
                left -= 1;
                match step_of(folds, held, gives) {
                    Step::Ends(outcome) => {
                        return outcome;
                    }
                    Step::Hold(pending, after) => {
                        held = pending;
                        spent = after;
                    }
                    Step::Bind(v, after) => {
                        inner.slots[places.accumulator] = Slot { value: v };
                        held = None;
                        spent = after;
                    }
                }
            }
        }
    }
    match held {
        Some((error, place)) => Outcome::Error(error, place, spent),
        None => part(table, lent, limit, places.result, &inner, spent),
    }
}
