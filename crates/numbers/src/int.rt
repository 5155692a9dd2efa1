// Int, an `i64`: its size, and arithmetic, checked.
#![tactic(auto, using(crate::proofs::IntLaws::answers))]

ghost use Rattle.std.specs.Prelude.{◌≡◌, nat_abs};
ghost use Rattle.numbers.specs.Int.{add_of, sub_of, mul_of, neg_of, div_of, rem_of};

use crate::error::ArithmeticError;

// The size of a number, without its sign: -2 ^ 63 has one too. (std's method under a name of ours: docs/PROOFS.md names it, with two edits.)
pub fn magnitude(a: i64) -> u64
    ensures { result ≡ nat_abs a }
{
    a.unsigned_abs()
}

pub fn add(a: i64, b: i64) -> Result<i64, ArithmeticError>
    ensures { result ≡ add_of a b }
{
    a.checked_add(b).ok_or(ArithmeticError::Overflow)
}

pub fn sub(a: i64, b: i64) -> Result<i64, ArithmeticError>
    ensures { result ≡ sub_of a b }
{
    a.checked_sub(b).ok_or(ArithmeticError::Overflow)
}

pub fn neg(a: i64) -> Result<i64, ArithmeticError>
    ensures { result ≡ neg_of a }
{
    a.checked_neg().ok_or(ArithmeticError::Overflow)
}

pub fn mul(a: i64, b: i64) -> Result<i64, ArithmeticError>
    ensures { result ≡ mul_of a b }
{
    a.checked_mul(b).ok_or(ArithmeticError::Overflow)
}

// -2 ^ 63 / -1 is out of range.
pub fn div(a: i64, b: i64) -> Result<i64, ArithmeticError>
    ensures { result ≡ div_of a b }
{
    if b == 0 {
        return Err(ArithmeticError::DivisionByZero);
    }
    a.checked_div(b).ok_or(ArithmeticError::Overflow)
}

pub fn rem(a: i64, b: i64) -> Result<i64, ArithmeticError>
    ensures { result ≡ rem_of a b }
{
    if b == 0 {
        return Err(ArithmeticError::RemainderByZero);
    }
    a.checked_rem(b).ok_or(ArithmeticError::Overflow)
}
