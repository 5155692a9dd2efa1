// A binary operator whose right operand is a value. Logic decides from what the left operand came to, any other operator from two values.
ghost use Rattle.machine.specs.Selection.{index, opt_select};
ghost use Rattle.machine.specs.Machine.{values_out, right_of};
ghost use Rattle.eval_outcomes.specs.Gives.{Gives};
ghost use Rattle.eval_outcomes.specs.Seen.{binary_seen};

use eval_arithmetic::operations::arithmetic;
use eval_comparison::membership::is_in;
use eval_comparison::{compare, equals};
use eval_logic::logic_right;
use eval_outcomes::operators::Binary;
use eval_selection::indexing::{index, optional_select};
use machine::outcome::{Outcome, Used};
use rooms::memory::Lent;
use rooms::value::Value;

// A look-up writes cells alone, and is lent them apart.
fn indexed(
    lent: &mut Lent,
    limit: usize,
    optional: bool,
    container: Value,
    probe: Value,
    at: usize,
    used: Used,
) -> Outcome
    ensures { Gives result lent.old lent.new (λ r. index limit at optional container probe used r) }
{
    let inputs = lent.inputs();
    let text = &mut *lent.text;
    index(
        &inputs, lent.cells, text, limit, optional, container, probe, at, used,
    )
}

fn optionally_selected(
    lent: &mut Lent,
    limit: usize,
    container: Value,
    field: Value,
    at: usize,
    used: Used,
) -> Outcome
    ensures { Gives result lent.old lent.new (λ r. opt_select limit at container field used r) }
{
    let inputs = lent.inputs();
    let text = &mut *lent.text;
    optional_select(&inputs, lent.cells, text, limit, container, field, at, used)
}

// Both operands are values, and the operator is none of logic.
fn values(
    lent: &mut Lent,
    limit: usize,
    operator: Binary,
    left: Value,
    right: Value,
    at: usize,
    used: Used,
) -> Outcome
    ensures { Gives result lent.old lent.new (λ r. values_out limit at (binary_seen operator) left right used r) }
{
    match operator {
        Binary::Equals => equals(&lent.view(), limit, true, left, right, used),
        Binary::NotEquals => equals(&lent.view(), limit, false, left, right, used),
        Binary::Index => indexed(lent, limit, false, left, right, at, used),
        Binary::OptionalIndex => indexed(lent, limit, true, left, right, at, used),
        Binary::OptionalSelect => optionally_selected(lent, limit, left, right, at, used),
        Binary::Arithmetic(operation) => arithmetic(lent, operation, left, right, at, used),
        Binary::Order(comparison) => compare(&lent.view(), comparison, left, right, at, used),
        Binary::In => is_in(&lent.view(), limit, left, right, at, used),
        Binary::Logic(_) => Outcome::Value(right, used),
    }
}

// An error or exhaustion of the left operand is the answer of any operator but those of logic.
pub fn after_right(
    lent: &mut Lent,
    limit: usize,
    operator: Binary,
    left: Outcome,
    right: Value,
    at: usize,
    used: Used,
) -> Outcome
    ensures { Gives result lent.old lent.new (λ r. right_of limit at (binary_seen operator) left right used r) }
{
    match (operator, left) {
        (Binary::Logic(fold), _) => logic_right(fold, left, right, at, used),
        (_, Outcome::Value(value, _)) => values(lent, limit, operator, value, right, at, used),
        _ => left,
    }
}
