// Double: 64 bits, or the float that they stand for; and arithmetic, one operation on the floats that the Doubles stand for.
// The logic's floats have one NaN, without bits, so a NaN with bits of its own is a case of its own.
ghost use Rattle.std.specs.Prelude.{◌≡◌};
ghost use Rattle.numbers.specs.Double.{bits_of, double_of, add_of, sub_of, mul_of, div_of, neg_of};
ghost use Rattle.std.specs.Float.{binary64};
ghost use Rattle.std.specs.Float.Ieee.{to_bits, of_bits};

use std::ops::{Add, Div, Mul, Neg, Sub};

#[derive(Clone, Copy)]
pub enum Double {
    // Every number and infinity. (A float NaN here stands for the NaN that arithmetic gives.)
    Plain(f64),
    // The bits of a NaN.
    Nan(u64),
}

// The NaN that arithmetic gives.
pub const ARITHMETIC_NAN: u64 = 0x7FF8_0000_0000_0000;

// Without the sign, a NaN's bits lie above those of the infinity.
pub const INFINITY_BITS: u64 = 0x7FF0_0000_0000_0000;

pub const SIGN_BIT: u64 = 0x8000_0000_0000_0000;

impl Double {
    #[tactic(auto, unfolding(crate::specs::Double::double_of))]
    pub fn from_bits(bits: u64) -> Double
        ensures { result ≡ double_of bits }
    {
        if INFINITY_BITS < bits % SIGN_BIT {
            Double::Nan(bits)
        } else {
            Double::Plain(f64::from_bits(bits))
        }
    }

    pub fn to_bits(self) -> u64
        ensures { result ≡ bits_of self }
    {
        match self {
            Double::Plain(f) if f.is_nan() => ARITHMETIC_NAN,
            Double::Plain(f) => f64::to_bits(f),
            Double::Nan(pattern) => pattern,
        }
    }

    // The Double of a float that arithmetic gave.
    fn of_float(f: f64) -> Double
        ensures { result ≡ double_of (to_bits binary64 f) }
    {
        if f.is_nan() {
            Double::Nan(ARITHMETIC_NAN)
        } else {
            Double::Plain(f)
        }
    }

    // The float that a Double stands for, whatever bits a NaN has.
    fn float(self) -> f64
        ensures { result ≡ of_bits binary64 (bits_of self) }
    {
        match self {
            Double::Plain(f) => f,
            Double::Nan(pattern) => {
                if INFINITY_BITS < pattern % SIGN_BIT {
                    f64::NAN
                } else {
                    f64::from_bits(pattern)
                }
            }
        }
    }
}

impl Add for Double {
    type Output = Double;

    ghost add_gives = { λ x y z. z ≡ add_of x y };

    #[tactic(auto, unfolding(crate::specs::Double::add_of, crate::specs::Double::add_bits))]
    fn add(self, other: Double) -> Double {
        Double::of_float(self.float() + other.float())
    }
}

impl Sub for Double {
    type Output = Double;

    ghost sub_gives = { λ x y z. z ≡ sub_of x y };

    #[tactic(auto, unfolding(crate::specs::Double::sub_of, crate::specs::Double::sub_bits))]
    fn sub(self, other: Double) -> Double {
        Double::of_float(self.float() - other.float())
    }
}

impl Mul for Double {
    type Output = Double;

    ghost mul_gives = { λ x y z. z ≡ mul_of x y };

    #[tactic(auto, unfolding(crate::specs::Double::mul_of, crate::specs::Double::mul_bits))]
    fn mul(self, other: Double) -> Double {
        Double::of_float(self.float() * other.float())
    }
}

impl Div for Double {
    type Output = Double;

    ghost div_gives = { λ x y z. z ≡ div_of x y };

    #[tactic(auto, unfolding(crate::specs::Double::div_of, crate::specs::Double::div_bits))]
    fn div(self, other: Double) -> Double {
        Double::of_float(self.float() / other.float())
    }
}

impl Neg for Double {
    type Output = Double;

    ghost neg_gives = { λ x y. y ≡ neg_of x };

    #[tactic(auto, unfolding(crate::specs::Double::neg_of, crate::specs::Double::neg_bits))]
    fn neg(self) -> Double {
        Double::of_float(-self.float())
    }
}
