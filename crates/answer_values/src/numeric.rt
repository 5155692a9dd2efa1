// The number of a value, as a caller reads it. Every reader takes any value.
ghost use Rattle.std.specs.Prelude.{◌≡◌};
ghost use Rattle.rooms.specs.Value.{plain_of};
ghost use Rattle.answer_values.specs.Numbers.{numeric_of, number_in};

use numbers::order::Number;
use rooms::value::{Plain, Value, plain_of};

#[derive(Clone, Copy)]
pub enum Numeric {
    Int(i64),
    Uint(u64),
    // The bits of a Double.
    Bits(u64),
}

fn numeric_of(number: Number) -> Numeric
    ensures { result ≡ numeric_of number }
{
    match number {
        Number::Int(int) => Numeric::Int(int),
        Number::Uint(uint) => Numeric::Uint(uint),
        Number::Double(double) => Numeric::Bits(double.to_bits()),
    }
}

pub fn number_of(value: Value) -> Option<Numeric>
    ensures { result ≡ number_in (plain_of value) }
{
    match plain_of(value) {
        Plain::Number(number) => Some(numeric_of(number)),
        _ => None,
    }
}
