// Why there is no value: the numbers that errors and limits are known by.
// Both types are those of `machine`, which knows no numbers: a `From` for them would have to stand there, away from `specs/Numbers`.
ghost use Rattle.std.specs.Prelude.{◌≡◌};
ghost use Rattle.meaning.specs.Errors.{error_number};
ghost use Rattle.answer.specs.Numbers.{error_meant, limit_meant, limit_number};

use machine::outcome::{Error, Limit};

// The error's number in an answer.
pub fn error_number(error: Error) -> u8
    ensures { result ≡ error_number (error_meant error) }
{
    match error {
        Error::UndeclaredReference => 1,
        Error::BoolWanted => 2,
        Error::NoOverload => 3,
        Error::FunctionError => 4,
        Error::NoSuchKey => 5,
        Error::Arithmetic(arithmetic) => u8::from(arithmetic),
        Error::DuplicateKey => 9,
        Error::IndexOutOfBounds => 10,
        Error::UnsupportedKeyType => 11,
        Error::Unordered => 12,
        Error::IterableWanted => 13,
    }
}

// The limits in the order Steps, Cells, Text, Nesting.
pub fn limit_number(limit: Limit) -> u8
    ensures { result ≡ limit_number (limit_meant limit) }
{
    match limit {
        Limit::Steps => 1,
        Limit::Cells => 2,
        Limit::Text => 3,
        Limit::Nesting => 4,
    }
}
