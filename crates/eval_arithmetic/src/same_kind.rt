// Arithmetic on two numbers of one kind, by the rules of the crate numbers, and its answers as outcomes.
ghost use Rattle.std.specs.Prelude.{◌≡◌};
ghost use Rattle.machine.specs.Numbers.{answer_out, double_out, doubles_out};
ghost use Rattle.eval_outcomes.specs.Seen.{arith_seen};
ghost use Rattle.meaning.specs.Numbers.{int_arith, uint_arith};

use eval_outcomes::operators::Arith;
use eval_outcomes::outcomes::no_overload;
use machine::outcome::{Error, Outcome, Used};
use numbers::double::Double;
use numbers::error::ArithmeticError;
use rooms::value::Value;

pub fn answer_outcome(answer: Result<Value, ArithmeticError>, at: usize, used: Used) -> Outcome
    ensures { result ≡ answer_out at used answer }
{
    match answer {
        Ok(value) => Outcome::Value(value, used),
        Err(error) => Outcome::Error(Error::Arithmetic(error), at, used),
    }
}

pub fn double_outcome(answer: Double, used: Used) -> Outcome
    ensures { result ≡ double_out used answer }
{
    match answer {
        Double::Plain(float) => Outcome::Value(Value::Double(float), used),
        Double::Nan(bits) => Outcome::Value(Value::Nan(bits), used),
    }
}

#[tactic(auto, unfolding(meaning::specs::Numbers::int_arith))]
pub fn ints(operator: Arith, a: i64, b: i64) -> Result<i64, ArithmeticError>
    ensures { result ≡ int_arith (arith_seen operator) a b }
{
    match operator {
        Arith::Add => numbers::int::add(a, b),
        Arith::Subtract => numbers::int::sub(a, b),
        Arith::Divide => numbers::int::div(a, b),
        Arith::Multiply => numbers::int::mul(a, b),
        Arith::Remainder => numbers::int::rem(a, b),
    }
}

// Apart from `ints`: the five operations of the two kinds have nothing in common but their names, and a trait would list them three times more.
#[tactic(auto, unfolding(meaning::specs::Numbers::uint_arith))]
pub fn uints(operator: Arith, a: u64, b: u64) -> Result<u64, ArithmeticError>
    ensures { result ≡ uint_arith (arith_seen operator) a b }
{
    match operator {
        Arith::Add => numbers::uint::add(a, b),
        Arith::Subtract => numbers::uint::sub(a, b),
        Arith::Divide => numbers::uint::div(a, b),
        Arith::Multiply => numbers::uint::mul(a, b),
        Arith::Remainder => numbers::uint::rem(a, b),
    }
}

pub fn doubles(operator: Arith, a: Double, b: Double, at: usize, used: Used) -> Outcome
    ensures { result ≡ doubles_out at used (arith_seen operator) a b }
{
    match operator {
        Arith::Add => double_outcome(a + b, used),
        Arith::Subtract => double_outcome(a - b, used),
        Arith::Divide => double_outcome(a / b, used),
        Arith::Multiply => double_outcome(a * b, used),
        Arith::Remainder => no_overload(at, used),
    }
}
