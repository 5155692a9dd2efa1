// A shallow record, one within reach: a literal, a name, or one whose operands are at most one level above those. It is evaluated with its slots
// and no scope: a call that takes a scope copies it.
ghost use Rattle.std.specs.Prelude.{◌≡◌};
ghost use Rattle.table_check.specs.Records.{Sound, expr_of};
ghost use Rattle.machine.specs.Machine.{machine};
ghost use Rattle.eval_outcomes.specs.Gives.{Gives, Stays};
ghost use Rattle.eval_shallow.specs.Slots.{IsQuad, QuadBelow, QuadHolds};
ghost use Rattle.eval_shallow.specs.Shallow.{reach_of};

use crate::slots::{Pair, near_at};
use crate::two_levels::near;
use eval_shapes::leaves::{is_leaf, leaf, slot_at};
use machine::outcome::{Outcome, Used};
use rooms::memory::Lent;
use rooms::scope::{Scope, Slot};

// Its slots; a literal or a name has one, and the others are not looked at.
pub fn reach_at(table: &[u8], literal: &[u8], at: usize) -> Option<Pair<Pair<usize>>>
    requires { Sound table.now literal.now at }
    ensures { (result ≡ reach_of (expr_of table.now literal.now at)) × QuadBelow result }
{
    if is_leaf(table, at) {
        let first = Pair {
            first: slot_at(table, literal, at),
            second: 0,
        };
        return Some(Pair {
            first,
            second: Pair {
                first: 0,
                second: 0,
            },
        });
    }
    near_at(table, literal, at)
}

// What it gives in any scope that has these values in its slots.
pub fn reach(
    table: &[u8],
    lent: &mut Lent,
    limit: usize,
    at: usize,
    slots: Pair<Pair<Slot>>,
    used: Used,
) -> Outcome
    requires { Sound table.now lent.old.literal.now at × IsQuad (reach_of (expr_of table.now lent.old.literal.now at)) }
    ensures { Stays lent.old lent.new × ((c : Scope) → QuadHolds c (reach_of (expr_of table.now lent.old.literal.now at)) slots → Gives result lent.old lent.new (λ r. machine table.now limit (expr_of table.now lent.old.literal.now at) c used r)) }
{
    if is_leaf(table, at) {
        return leaf(table, lent.literal, limit, at, slots.first.first, used);
    }
    near(table, lent, limit, at, slots, used)
}
