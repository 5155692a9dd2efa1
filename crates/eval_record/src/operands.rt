// An operand that is a literal or a name, or near those, is evaluated with its slots alone, and any other by `eval`.
ghost use Rattle.std.specs.Prelude.{◌≡◌, Some};
ghost use Rattle.table_check.specs.Records.{Sound, expr_of};
ghost use Rattle.machine.specs.Machine.{machine};
ghost use Rattle.eval_outcomes.specs.Gives.{Gives};
ghost use Rattle.eval_shallow.specs.Slots.{QuadBelow, QuadHolds};
ghost use Rattle.eval_shallow.specs.Shallow.{reach_of};
ghost use Rattle.eval_shallow.specs.SingleLists.{single_of};

use crate::eval::eval;
use eval_shallow::shallow::reach;
use eval_shallow::single_lists::single;
use eval_shallow::slots::Pair;
use eval_shapes::leaves::{is_leaf, leaf, slot_at};
use machine::outcome::{Outcome, Used};
use rooms::memory::Lent;
use rooms::scope::{Scope, Slot};

// What stands in four slots.
fn slots_in(scope: &Scope, slots: Pair<Pair<usize>>) -> Pair<Pair<Slot>>
    requires { QuadBelow (Some slots) }
    ensures { QuadHolds scope.now (Some slots) result }
{
    Pair {
        first: Pair {
            first: scope.slots[slots.first.first],
            second: scope.slots[slots.first.second],
        },
        second: Pair {
            first: scope.slots[slots.second.first],
            second: scope.slots[slots.second.second],
        },
    }
}

// `slots` are those of the record, if it is within reach.
#[cycle(records)]
pub fn operand(
    table: &[u8],
    lent: &mut Lent,
    limit: usize,
    at: usize,
    slots: Option<Pair<Pair<usize>>>,
    scope: &Scope,
    used: Used,
) -> Outcome
    requires { Sound table.now lent.old.literal.now at × (slots ≡ reach_of (expr_of table.now lent.old.literal.now at)) × QuadBelow slots }
    ensures { Gives result lent.old lent.new (λ r. machine table.now limit (expr_of table.now lent.old.literal.now at) scope.now used r) }
{
    let Some(slots) = slots else {
        return eval(table, lent, limit, at, *scope, used);
    };
    reach(table, lent, limit, at, slots_in(scope, slots), used)
}

// An items list; `slots` are those of its element, if it has one alone and that is within reach.
#[cycle(records)]
pub fn items_list(
    table: &[u8],
    lent: &mut Lent,
    limit: usize,
    at: usize,
    slots: Option<Pair<Pair<usize>>>,
    scope: &Scope,
    used: Used,
) -> Outcome
    requires { Sound table.now lent.old.literal.now at × (slots ≡ single_of (expr_of table.now lent.old.literal.now at)) × QuadBelow slots }
    ensures { Gives result lent.old lent.new (λ r. machine table.now limit (expr_of table.now lent.old.literal.now at) scope.now used r) }
{
    let Some(slots) = slots else {
        return eval(table, lent, limit, at, *scope, used);
    };
    single(table, lent, limit, at, slots_in(scope, slots), used)
}

// A literal or a name with its slot, and any other record by `eval`.
#[cycle(records)]
pub fn part(
    table: &[u8],
    lent: &mut Lent,
    limit: usize,
    at: usize,
    scope: &Scope,
    used: Used,
) -> Outcome
    requires { Sound table.now lent.old.literal.now at }
    ensures { Gives result lent.old lent.new (λ r. machine table.now limit (expr_of table.now lent.old.literal.now at) scope.now used r) }
{
    if is_leaf(table, at) {
        let slot = slot_at(table, lent.literal, at);
        return leaf(table, lent.literal, limit, at, scope.slots[slot], used);
    }
    eval(table, lent, limit, at, *scope, used)
}
