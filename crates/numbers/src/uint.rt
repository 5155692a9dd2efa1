// Uint, a `u64`: arithmetic, checked. int.rt and this file differ in what a zero divisor and -1 do, and each body is one of std's methods,
// so a trait for both would only repeat the methods.
#![tactic(auto, using(crate::proofs::UintLaws::answers))]

ghost use Rattle.std.specs.Prelude.{◌≡◌};
ghost use Rattle.numbers.specs.Uint.{add_of, sub_of, mul_of, div_of, rem_of};

use crate::error::ArithmeticError;

pub fn add(a: u64, b: u64) -> Result<u64, ArithmeticError>
    ensures { result ≡ add_of a b }
{
    a.checked_add(b).ok_or(ArithmeticError::Overflow)
}

pub fn sub(a: u64, b: u64) -> Result<u64, ArithmeticError>
    ensures { result ≡ sub_of a b }
{
    a.checked_sub(b).ok_or(ArithmeticError::Overflow)
}

pub fn mul(a: u64, b: u64) -> Result<u64, ArithmeticError>
    ensures { result ≡ mul_of a b }
{
    a.checked_mul(b).ok_or(ArithmeticError::Overflow)
}

pub fn div(a: u64, b: u64) -> Result<u64, ArithmeticError>
    ensures { result ≡ div_of a b }
{
    a.checked_div(b).ok_or(ArithmeticError::DivisionByZero)
}

pub fn rem(a: u64, b: u64) -> Result<u64, ArithmeticError>
    ensures { result ≡ rem_of a b }
{
    a.checked_rem(b).ok_or(ArithmeticError::RemainderByZero)
}
