// Records with a fixed number of operands: what is done once an operand is evaluated.
// Here: what follows the operand that is begun first, with what the record has beside its operands. `unary` and `select_and_calls` end records of
// one operand; `left_operand` says whether the right one is begun; `both_operands` and `two_values` end records of two.
#![tactic(auto)]

pub mod both_operands;
pub mod left_operand;
mod select_and_calls;
pub mod two_values;
mod unary;

ghost use Rattle.std.specs.Prelude.{◌≡◌, ◌+◌, ◌≤◌, length};
ghost use Rattle.meaning.specs.Kinds.{select_kind};
ghost use Rattle.table_check.specs.Records.{Sound, expr_of, head_of_kind};
ghost use Rattle.machine.specs.Literals.{field_value};
ghost use Rattle.eval_outcomes.specs.Gives.{Gives, GivesCells};
ghost use Rattle.eval_shapes.specs.Shapes.{shape_of, next_of};

use crate::left_operand::after_left;
use crate::select_and_calls::{call, select};
use crate::unary::unary;
use eval_shapes::Shape;
use eval_shapes::next::{Fixed, Next, after_condition, after_default};
use machine::outcome::Outcome;
use rooms::memory::{Inputs, Lent};
use rooms::value::{Span, TextSpace, Value};
use table_layout::fields::field_at;
use table_layout::outline::{end_at, first_operand};

fn field_value(table: &[u8], at: usize) -> Value
    requires { at + head_of_kind select_kind ≤ length table.now }
    ensures { result ≡ field_value table.now at }
{
    let span = field_at(table, at);
    Value::String(Span {
        space: TextSpace::Literal,
        first: span.offset as u16,
        length: span.size as u16,
    })
}

// What follows the operand that is begun first, from what that one came to.
pub fn after_first(
    table: &[u8],
    inputs: &Inputs,
    cells: &mut [u64],
    text: &[u8],
    limit: usize,
    at: usize,
    fixed: Fixed,
    first: Outcome,
) -> Next
    requires { Sound table.now inputs.now.literal.now at × (shape_of (expr_of table.now inputs.now.literal.now at) ≡ Shape.Operands fixed) }
    ensures { GivesCells result inputs.now text.now cells.old cells.new (λ r. next_of table.now limit at fixed first r) }
{
    match fixed {
        Fixed::Unary(operator) => Next::Stop(unary(operator, first, at)),
        Fixed::Binary(operator) => {
            let second = end_at(table, first_operand(table, at));
            after_left(operator, first, second)
        }
        Fixed::Conditional => {
            let second = end_at(table, first_operand(table, at));
            after_condition(first, at, second, end_at(table, second))
        }
        Fixed::Select(test) => Next::Stop(select(
            inputs,
            cells,
            text,
            limit,
            test,
            first,
            field_value(table, at),
            at,
        )),
        Fixed::Call(function) => Next::Stop(call(inputs, cells, text, function, first, at)),
        Fixed::OrValue => after_default(first, first_operand(table, at)),
    }
}

// The same of all that is lent to a run: what follows writes cells alone, and is lent them apart.
pub fn next_after(
    table: &[u8],
    lent: &mut Lent,
    limit: usize,
    at: usize,
    fixed: Fixed,
    first: Outcome,
) -> Next
    requires { Sound table.now lent.old.literal.now at × (shape_of (expr_of table.now lent.old.literal.now at) ≡ Shape.Operands fixed) }
    ensures { Gives result lent.old lent.new (λ r. next_of table.now limit at fixed first r) }
{
    let inputs = lent.inputs();
    let text = &mut *lent.text;
    after_first(table, &inputs, lent.cells, text, limit, at, fixed, first)
}
