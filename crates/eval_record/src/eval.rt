// The record evaluator, which the lists, the maps and the comprehensions call and are called by.
ghost use Rattle.table_check.specs.Records.{Sound, expr_of};
ghost use Rattle.machine.specs.Machine.{machine};
ghost use Rattle.eval_outcomes.specs.Gives.{Gives};

use crate::comprehension::comprehend;
use crate::list_records::list_parts;
use crate::map_records::map_parts;
use crate::operands::operand;
use eval_containers::begin;
use eval_operands::both_operands::after_both;
use eval_operands::next_after;
use eval_outcomes::outcomes::{out_of_cells, out_of_steps, stepped};
use eval_shallow::shallow::reach_at;
use eval_shapes::leaves::{leaf_value, slot_at};
use eval_shapes::next::Next;
use eval_shapes::{Shape, begun_first, shape_at};
use machine::outcome::{Outcome, Used};
use rooms::memory::Lent;
use rooms::scope::Scope;
use rooms::value::Value;
use table_layout::fields::count_at;

// What the record at a place gives: its step, then by its shape.
#[cycle(records)]
pub fn eval(
    table: &[u8],
    lent: &mut Lent,
    limit: usize,
    at: usize,
    scope: Scope,
    used: Used,
) -> Outcome
    requires { Sound table.now lent.old.literal.now at }
    ensures { Gives result lent.old lent.new (λ r. machine table.now limit (expr_of table.now lent.old.literal.now at) scope used r) }
{
    if limit <= used.steps {
        return out_of_steps(used);
    }
    let stepped = stepped(used);
    match shape_at(table, lent.literal, at) {
        Shape::Leaf => {
            let slot = slot_at(table, lent.literal, at);
            leaf_value(table, lent.literal, at, scope.slots[slot], stepped)
        }
        Shape::None => Outcome::Value(Value::OptionalNone, stepped),
        Shape::List => {
            let count = count_at(table, at);
            let Some(begun) = begin(lent, count, count, stepped) else {
                return out_of_cells(stepped);
            };
            list_parts(table, lent, limit, at, scope, begun)
        }
        Shape::Map => {
            let count = count_at(table, at);
            let Some(begun) = begin(lent, count, 2 * count, stepped) else {
                return out_of_cells(stepped);
            };
            map_parts(table, lent, limit, at, scope, begun)
        }
        Shape::Comprehension => comprehend(table, lent, limit, at, scope, stepped),
        Shape::Operands(fixed) => {
            let one = begun_first(table, lent.literal, at, fixed);
            let slots = reach_at(table, lent.literal, one);
            let left = operand(table, lent, limit, one, slots, &scope, stepped);
            match next_after(table, lent, limit, at, fixed, left) {
                Next::Stop(outcome) => outcome,
                Next::At(two, more) => {
                    let slots = reach_at(table, lent.literal, two);
                    let right = operand(table, lent, limit, two, slots, &scope, more);
                    after_both(lent, limit, at, fixed, left, right)
                }
            }
        }
    }
}
