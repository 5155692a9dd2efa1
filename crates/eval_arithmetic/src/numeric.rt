// Arithmetic with a number on the left: the right operand must be a number of its kind.
ghost use Rattle.std.specs.Prelude.{◌≡◌};
ghost use Rattle.rooms.specs.Value.{plain_of};
ghost use Rattle.machine.specs.Numbers.{numbers_out, number_arith};
ghost use Rattle.eval_outcomes.specs.Seen.{arith_seen};

use crate::same_kind::{answer_outcome, doubles, ints, uints};
use eval_outcomes::operators::Arith;
use eval_outcomes::outcomes::no_overload;
use machine::outcome::{Outcome, Used};
use numbers::order::Number;
use rooms::value::{Plain, Value, plain_of};

fn two_numbers(operator: Arith, left: Number, right: Number, at: usize, used: Used) -> Outcome
    ensures { result ≡ numbers_out at used (arith_seen operator) left right }
{
    match (left, right) {
        (Number::Int(a), Number::Int(b)) => {
            answer_outcome(ints(operator, a, b).map(Value::Int), at, used)
        }
        (Number::Uint(a), Number::Uint(b)) => {
            answer_outcome(uints(operator, a, b).map(Value::Uint), at, used)
        }
        (Number::Double(a), Number::Double(b)) => doubles(operator, a, b, at, used),
        _ => no_overload(at, used),
    }
}

pub fn number_arith(operator: Arith, left: Number, right: Value, at: usize, used: Used) -> Outcome
    ensures { result ≡ number_arith at used (arith_seen operator) left (plain_of right) }
{
    let Plain::Number(right) = plain_of(right) else {
        return no_overload(at, used);
    };
    two_numbers(operator, left, right, at, used)
}
