// A record whose operands are literals, names and records of those, evaluated with their slots and no scope: a call that takes a scope copies it.
ghost use Rattle.table_check.specs.Records.{Sound, expr_of};
ghost use Rattle.machine.specs.Machine.{machine};
ghost use Rattle.eval_outcomes.specs.Gives.{Gives, Stays};
ghost use Rattle.eval_shallow.specs.Slots.{near_of, IsQuad, QuadHolds};

use crate::one_level::small;
use crate::slots::Pair;
use eval_operands::both_operands::after_both;
use eval_operands::next_after;
use eval_outcomes::outcomes::{out_of_steps, stepped};
use eval_shapes::next::Next;
use eval_shapes::{Shape, begun_first, shape_at};
use machine::outcome::{Outcome, Used};
use rooms::memory::Lent;
use rooms::scope::{Scope, Slot};

// What it gives in any scope that has these values in its slots. No other record is asked for: there the last arm is never taken.
pub fn near(
    table: &[u8],
    lent: &mut Lent,
    limit: usize,
    at: usize,
    slots: Pair<Pair<Slot>>,
    used: Used,
) -> Outcome
    requires { Sound table.now lent.old.literal.now at × IsQuad (near_of (expr_of table.now lent.old.literal.now at)) }
    ensures { Stays lent.old lent.new × ((c : Scope) → QuadHolds c (near_of (expr_of table.now lent.old.literal.now at)) slots → Gives result lent.old lent.new (λ r. machine table.now limit (expr_of table.now lent.old.literal.now at) c used r)) }
{
    if limit <= used.steps {
        return out_of_steps(used);
    }
    let literal = lent.literal;
    let begun = stepped(used);
    match shape_at(table, literal, at) {
        Shape::Operands(fixed) => {
            let one = begun_first(table, literal, at, fixed);
            let left = small(table, lent, limit, one, slots.first, begun);
            match next_after(table, lent, limit, at, fixed, left) {
                Next::Stop(outcome) => outcome,
                Next::At(two, more) => {
                    let right = small(table, lent, limit, two, slots.second, more);
                    after_both(lent, limit, at, fixed, left, right)
                }
            }
        }
        _ => out_of_steps(used),
    }
}
