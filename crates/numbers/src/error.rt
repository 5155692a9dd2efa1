// What arithmetic answers where it has no result.
ghost use Rattle.std.specs.Prelude.{◌≡◌};

// Each error with its number in an answer.
#[derive(Clone, Copy, Debug, PartialEq, Eq)]
pub enum ArithmeticError {
    Overflow = 6,
    DivisionByZero = 7,
    RemainderByZero = 8,
}

impl From<ArithmeticError> for u8 {
    ghost use Rattle.numbers.specs.Error.{number_of};

    ghost from_gives = { λ error number. number ≡ number_of error };

    fn from(error: ArithmeticError) -> u8 {
        error as u8
    }
}
