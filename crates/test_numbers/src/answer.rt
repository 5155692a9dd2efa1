// What a case can answer, and how that is written.
use numbers::error::ArithmeticError;
use std::cmp::Ordering;
use std::fmt;

#[derive(Clone, Copy)]
pub enum Answer {
    Bits(u64),
    Error(ArithmeticError),
    Order(Option<Ordering>),
    Truth(bool),
    Count(usize),
}

fn error_name(error: ArithmeticError) -> &'static str {
    match error {
        ArithmeticError::Overflow => "Overflow",
        ArithmeticError::DivisionByZero => "DivisionByZero",
        ArithmeticError::RemainderByZero => "RemainderByZero",
    }
}

fn order_name(order: Option<Ordering>) -> &'static str {
    match order {
        Some(Ordering::Less) => "Less",
        Some(Ordering::Equal) => "Equal",
        Some(Ordering::Greater) => "Greater",
        None => "Unordered",
    }
}

impl fmt::Display for Answer {
    fn fmt<W: fmt::Write>(&self, f: &mut fmt::Formatter<W>) -> fmt::Result {
        match *self {
            Answer::Bits(bits) => write!(f, "{bits:016x}"),
            // the error's name and number
            Answer::Error(error) => write!(f, "{} {}", error_name(error), u8::from(error)),
            Answer::Order(order) => f.write_str(order_name(order)),
            Answer::Truth(truth) => write!(f, "{truth}"),
            Answer::Count(count) => write!(f, "{count}"),
        }
    }
}
