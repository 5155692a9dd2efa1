// Arithmetic on one kind of number, by its operator. An Int and a Double go in and out by their bits, an Int's in two's complement.
use crate::answer::Answer;
use numbers::double::Double;
use numbers::error::ArithmeticError;

fn of_int(answer: Result<i64, ArithmeticError>) -> Answer {
    of_uint(answer.map(i64::cast_unsigned))
}

fn of_uint(answer: Result<u64, ArithmeticError>) -> Answer {
    match answer {
        Ok(bits) => Answer::Bits(bits),
        Err(error) => Answer::Error(error),
    }
}

fn of_double(x: Double) -> Answer {
    Answer::Bits(x.to_bits())
}

fn int(operator: &[u8], a: i64, b: i64) -> Option<Answer> {
    match operator {
        b"+" => Some(of_int(numbers::int::add(a, b))),
        b"-" => Some(of_int(numbers::int::sub(a, b))),
        b"*" => Some(of_int(numbers::int::mul(a, b))),
        b"/" => Some(of_int(numbers::int::div(a, b))),
        b"%" => Some(of_int(numbers::int::rem(a, b))),
        _ => None,
    }
}

fn uint(operator: &[u8], a: u64, b: u64) -> Option<Answer> {
    match operator {
        b"+" => Some(of_uint(numbers::uint::add(a, b))),
        b"-" => Some(of_uint(numbers::uint::sub(a, b))),
        b"*" => Some(of_uint(numbers::uint::mul(a, b))),
        b"/" => Some(of_uint(numbers::uint::div(a, b))),
        b"%" => Some(of_uint(numbers::uint::rem(a, b))),
        _ => None,
    }
}

fn double(operator: &[u8], x: Double, y: Double) -> Option<Answer> {
    match operator {
        b"+" => Some(of_double(x + y)),
        b"-" => Some(of_double(x - y)),
        b"*" => Some(of_double(x * y)),
        b"/" => Some(of_double(x / y)),
        _ => None,
    }
}

fn one_int(name: &[u8], z: i64) -> Option<Answer> {
    match name {
        b"-" => Some(of_int(numbers::int::neg(z))),
        _ => None,
    }
}

// `bits` answers the bits that came.
fn one_double(name: &[u8], x: Double) -> Option<Answer> {
    match name {
        b"-" => Some(of_double(-x)),
        b"bits" => Some(of_double(x)),
        _ => None,
    }
}

fn one(kind: &[u8], name: &[u8], bits: u64) -> Option<Answer> {
    match kind {
        b"int" => one_int(name, bits.cast_signed()),
        b"double" => one_double(name, Double::from_bits(bits)),
        _ => None,
    }
}

fn two(kind: &[u8], name: &[u8], a: u64, b: u64) -> Option<Answer> {
    match kind {
        b"int" => int(name, a.cast_signed(), b.cast_signed()),
        b"uint" => uint(name, a, b),
        b"double" => double(name, Double::from_bits(a), Double::from_bits(b)),
        _ => None,
    }
}

// An operation on the numbers that the words spell; the second word is empty where there is one number.
pub fn answer(kind: &[u8], name: &[u8], left: &[u8], right: &[u8]) -> Option<Answer> {
    let a = crate::hex::number(left)?;
    if right.is_empty() {
        return one(kind, name, a);
    }
    two(kind, name, a, crate::hex::number(right)?)
}
