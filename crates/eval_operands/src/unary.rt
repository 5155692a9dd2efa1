// The operators of one operand, after it.
ghost use Rattle.std.specs.Prelude.{◌≡◌};
ghost use Rattle.machine.specs.Machine.{unary_out};
ghost use Rattle.eval_outcomes.specs.Seen.{unary_seen};

use eval_arithmetic::minus::negate;
use eval_logic::negation::{not, not_strictly_false};
use eval_outcomes::operators::Unary;
use machine::outcome::Outcome;

// An error or exhaustion of the operand is the answer of `!` and `-`.
pub fn unary(operator: Unary, operand: Outcome, at: usize) -> Outcome
    ensures { result ≡ unary_out at (unary_seen operator) operand }
{
    match (operator, operand) {
        (Unary::Not, Outcome::Value(value, used)) => not(value, at, used),
        (Unary::Negate, Outcome::Value(value, used)) => negate(value, at, used),
        (Unary::NotStrictlyFalse, _) => not_strictly_false(operand),
        _ => operand,
    }
}
