// The append path of a comprehension.
ghost use Rattle.std.specs.Prelude.{◌+◌, ◌<◌, ◌≤◌, Some, get_or};
ghost use Rattle.meaning.specs.Kinds.{name_kind};
ghost use Rattle.meaning.specs.Limits.{names};
ghost use Rattle.table_layout.specs.Layout.{word_at};
ghost use Rattle.table_check.specs.Records.{Sound, kind_byte};
ghost use Rattle.machine.specs.Comprehension.{append_turns, nothing_gathered};
ghost use Rattle.eval_outcomes.specs.Gives.{Gives};
ghost use Rattle.eval_shapes.specs.Comprehensions.{PathIn, loop_at, append_at};

use crate::operands::{items_list, operand};
use eval_comprehension::append_result::Runs;
use eval_comprehension::append_turn::gather_items;
use eval_logic::conditions::{Asked, asks};
use eval_shallow::shallow::reach_at;
use eval_shallow::single_lists::single_at;
use eval_shapes::comprehensions::{Appending, Places};
use eval_shapes::leaves::leaf;
use machine::items::Items;
use machine::outcome::{Outcome, Used};
use rooms::memory::Lent;
use rooms::scope::{Scope, Slot};
use rooms_cells::cell_at;

// The append path: the accumulator is not stored, and the step and the result are not begun. The condition is a literal.
#[cycle(records)]
pub fn appends(
    table: &[u8],
    lent: &mut Lent,
    limit: usize,
    at: usize,
    scope: Scope,
    used: Used,
    places: Places,
    path: Appending,
    items: Items,
) -> Outcome
    requires { Sound table.now lent.old.literal.now places.condition × (get_or table.now places.condition 0 < kind_byte name_kind) × PathIn table.now lent.old.literal.now places.step (Some path) × (word_at table.now (places.step + 1) ≤ word_at table.now (at + 1)) × (places.item < names) }
    ensures { Gives result lent.old lent.new (λ r. append_turns (loop_at table.now lent.old.literal.now limit at places) (append_at table.now lent.old.literal.now limit path) items.space items.stride items.count items.first nothing_gathered scope used r) }
{
    // without a guard these are the slots of the items list, which nobody looks at
    let guard = path.guard.unwrap_or(path.list);
    let guard_slots = reach_at(table, lent.literal, guard);
    let list_slots = single_at(table, lent.literal, path.list);
    let mut inner = scope;
    let mut collected = Runs::nothing();
    let mut spent = used;
    let mut cell = items.first as usize;
    let mut left = items.count as usize;
    while 0 < left {
        let test = leaf(
            table,
            lent.literal,
            limit,
            places.condition,
            Slot::ABSENT,
            spent,
        );
        match asks(test, at) {
            Asked::Ends(outcome) => {
                return outcome;
            }
            // no turn is left
            Asked::Fails(more) => {
                spent = more;
                left = 0;
            }
            Asked::Holds(more) => {
                inner.slots[places.item] = Slot {
                    value: cell_at(&lent.view(), items.space, cell),
                };
                cell += items.stride as usize;
                left -= 1;
                let passes = if path.guard.is_some() {
                    let test = operand(table, lent, limit, guard, guard_slots, &inner, more);
                    asks(test, at)
                } else {
                    Asked::Holds(more)
                };
                match passes {
                    Asked::Ends(outcome) => {
                        return outcome;
                    }
                    Asked::Fails(after) => {
                        spent = after;
                    }
                    Asked::Holds(after) => {
                        let gathers = items_list(
                            table, lent, limit, path.list, list_slots, &inner, after,
                        );
                        match gather_items(lent, gathers) {
                            Err(outcome) => {
                                return outcome;
                            }
                            Ok(turn) => {
                                collected.add(turn.run, turn.nesting);
                                spent = turn.used;
                            }
                        }
                    }
                }
            }
        }
    }
    collected.list(lent, spent)
}
