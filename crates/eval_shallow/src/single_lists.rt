// A List record of one element without a mark, the element within reach, evaluated with its slots and no scope: what a turn of the append path
// begins.
ghost use Rattle.std.specs.Prelude.{◌≡◌};
ghost use Rattle.table_check.specs.Records.{Sound, expr_of};
ghost use Rattle.machine.specs.Machine.{machine};
ghost use Rattle.eval_outcomes.specs.Gives.{Gives, Stays};
ghost use Rattle.eval_shallow.specs.Slots.{IsQuad, QuadBelow, QuadHolds};
ghost use Rattle.eval_shallow.specs.SingleLists.{single_of};

use crate::shallow::{reach, reach_at};
use crate::slots::Pair;
use eval_containers::elements::add_element;
use eval_containers::{Container, Ready, begin, whole_of};
use eval_outcomes::outcomes::{out_of_cells, out_of_steps, stepped};
use eval_shapes::leaves::is_marked;
use machine::outcome::{Outcome, Used};
use rooms::memory::Lent;
use rooms::scope::{Scope, Slot};
use table_layout::fields::count_at;
use table_layout::kinds::LIST;
use table_layout::outline::{first_operand, kind_at};

// The slots of its element.
pub fn single_at(table: &[u8], literal: &[u8], at: usize) -> Option<Pair<Pair<usize>>>
    requires { Sound table.now literal.now at }
    ensures { (result ≡ single_of (expr_of table.now literal.now at)) × QuadBelow result }
{
    if kind_at(table, at) != LIST {
        return None;
    }
    if count_at(table, at) != 1 {
        return None;
    }
    let element = first_operand(table, at);
    if is_marked(table, element) {
        return None;
    }
    reach_at(table, literal, element)
}

// The step, the cell, the element, then the list of it: what it gives in any scope that has these values in its slots.
pub fn single(
    table: &[u8],
    lent: &mut Lent,
    limit: usize,
    at: usize,
    slots: Pair<Pair<Slot>>,
    used: Used,
) -> Outcome
    requires { Sound table.now lent.old.literal.now at × IsQuad (single_of (expr_of table.now lent.old.literal.now at)) }
    ensures { Stays lent.old lent.new × ((c : Scope) → QuadHolds c (single_of (expr_of table.now lent.old.literal.now at)) slots → Gives result lent.old lent.new (λ r. machine table.now limit (expr_of table.now lent.old.literal.now at) c used r)) }
{
    if limit <= used.steps {
        return out_of_steps(used);
    }
    let charged = stepped(used);
    match begin(lent, 1, 1, charged) {
        None => out_of_cells(charged),
        Some(begun) => {
            let element = reach(
                table,
                lent,
                limit,
                first_operand(table, at),
                slots,
                begun.used,
            );
            let Outcome::Value(value, more) = element else {
                return element;
            };
            let none = Ready { count: 0, deep: 0 };
            let ready = add_element(lent, begun.first, none, false, value);
            whole_of(Container::List, begun.first, ready, more)
        }
    }
}
