// The arithmetic operators, by what the left operand is.
ghost use Rattle.machine.specs.Numbers.{only_add, arithmetic};
ghost use Rattle.eval_outcomes.specs.Seen.{arith_seen};
ghost use Rattle.eval_outcomes.specs.Gives.{Gives};
ghost use Rattle.eval_arithmetic.specs.Sums.{sum_of};

use crate::numeric::number_arith;
use crate::sums::sum;
use eval_outcomes::operators::Arith;
use eval_outcomes::outcomes::no_overload;
use machine::outcome::{Outcome, Used};
use rooms::memory::Lent;
use rooms::value::{Plain, Value, plain_of};

// No number on the left.
fn other_arith(
    lent: &mut Lent,
    operator: Arith,
    left: Value,
    right: Value,
    at: usize,
    used: Used,
) -> Outcome
    ensures { Gives result lent.old lent.new (λ r. only_add at (arith_seen operator) (λ u q. sum_of at left right u q) used r) }
{
    match operator {
        Arith::Add => sum(lent, left, right, at, used),
        _ => no_overload(at, used),
    }
}

pub fn arithmetic(
    lent: &mut Lent,
    operator: Arith,
    left: Value,
    right: Value,
    at: usize,
    used: Used,
) -> Outcome
    ensures { Gives result lent.old lent.new (λ r. arithmetic at (arith_seen operator) left right used r) }
{
    let Plain::Number(n) = plain_of(left) else {
        return other_arith(lent, operator, left, right, at, used);
    };
    number_arith(operator, n, right, at, used)
}
