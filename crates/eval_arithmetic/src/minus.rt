// Unary minus: an Int or a Double.
ghost use Rattle.std.specs.Prelude.{◌≡◌};
ghost use Rattle.rooms.specs.Value.{plain_of};
ghost use Rattle.machine.specs.Numbers.{negate_number, negate_plain};

use crate::same_kind::{answer_outcome, double_outcome};
use eval_outcomes::outcomes::no_overload;
use machine::outcome::{Outcome, Used};
use numbers::order::Number;
use rooms::value::{Plain, Value, plain_of};

fn negate_number(n: Number, at: usize, used: Used) -> Outcome
    ensures { result ≡ negate_number at used n }
{
    match n {
        Number::Int(z) => answer_outcome(numbers::int::neg(z).map(Value::Int), at, used),
        Number::Uint(_) => no_overload(at, used),
        Number::Double(d) => double_outcome(-d, used),
    }
}

pub fn negate(v: Value, at: usize, used: Used) -> Outcome
    ensures { result ≡ negate_plain at used (plain_of v) }
{
    let Plain::Number(n) = plain_of(v) else {
        return no_overload(at, used);
    };
    negate_number(n, at, used)
}
