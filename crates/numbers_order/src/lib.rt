// Numbers of all three kinds on the exact number line: `compare`, and equality from it.
// An Int or a Uint is a whole size with a sign; a Double is compared through its bits, as whole numbers. Nothing is rounded.
// `compare` is no `PartialOrd` of `Number`: its proof rests on numbers_laws, and that on the crate of the type.
#![tactic(auto)]

ghost use Rattle.std.specs.Prelude.{◌≡◌, false, not, ◌*◌, ◌^◌, nat_abs};
ghost use Rattle.numbers.specs.Double.{size_of, point_of};
ghost use Rattle.numbers.specs.Order.{size_order, signed_order, order_of, below_zero, whole_point, number_point, is_equal};
ghost use Rattle.numbers_order.specs.Size.{cut};

use numbers::double::{INFINITY_BITS, SIGN_BIT};
use numbers::int::magnitude;
use numbers::order::Number;
use std::cmp::Ordering;

// The weight of the leading digit, which the bits of a normal Double leave out.
const HIDDEN_DIGIT: u64 = 0x10_0000_0000_0000;

// The exponents of 1, of the first Doubles that are all whole (2 ^ 52), and of the first beyond every integer (2 ^ 64).
const EXPONENT_OF_ONE: u64 = 1023;

const ALL_WHOLE: u64 = 1075;

const BEYOND_INTEGERS: u64 = 1087;

// A size with a sign: a whole number, or a Double's bits below the sign.
#[derive(Clone, Copy)]
struct Signed {
    below: bool,
    size: u64,
}

impl From<i64> for Signed {
    ghost from_gives = { λ z s. (s.below ≡ below_zero z) × (s.size ≡ nat_abs z) };

    fn from(z: i64) -> Signed {
        Signed {
            below: z < 0,
            size: magnitude(z),
        }
    }
}

impl From<u64> for Signed {
    ghost from_gives = { λ n s. (s.below ≡ false) × (s.size ≡ n) };

    fn from(n: u64) -> Signed {
        Signed {
            below: false,
            size: n,
        }
    }
}

// Two sizes of unlike signs, the first below zero or not: two zeros are equal.
#[tactic(auto, using(numbers_laws::proofs::SignedOrder::unlike))]
fn across_zero(below: bool, a: u64, b: u64) -> Ordering
    ensures { result ≡ signed_order below a (not below) b }
{
    if a == 0 && b == 0 {
        Ordering::Equal
    } else if below {
        Ordering::Less
    } else {
        Ordering::Greater
    }
}

#[tactic(auto, unfolding(numbers::specs::Order::signed_order, numbers::specs::Order::size_order))]
fn signed_sizes(left: Signed, right: Signed) -> Ordering
    ensures { result ≡ signed_order left.below left.size right.below right.size }
{
    match (left.below, right.below) {
        (false, false) => left.size.cmp(&right.size),
        (true, true) => right.size.cmp(&left.size),
        _ => across_zero(left.below, left.size, right.size),
    }
}

// The size of the Double with these bits, whatever its sign, cut to a whole number, and whether that cut anything off.
// There is none from 2 ^ 64 on, and of an infinity.
fn size_of(bits: u64) -> Option<(u64, bool)>
    ensures { result ≡ cut (size_of bits) }
{
    let exponent = bits % SIGN_BIT / HIDDEN_DIGIT;
    let digits = bits % HIDDEN_DIGIT;
    if exponent == 0 {
        return Some((0, digits != 0));
    }
    if exponent < EXPONENT_OF_ONE {
        return Some((0, true));
    }
    let significand = digits + HIDDEN_DIGIT;
    if exponent < ALL_WHOLE {
        let shift = ALL_WHOLE - exponent;
        let whole = significand >> shift;
        return Some((whole, whole << shift != significand));
    }
    if exponent < BEYOND_INTEGERS {
        return Some((significand << (exponent - ALL_WHOLE), false));
    }
    None
}

// A whole number against the size of the Double with these bits.
fn against(whole: u64, bits: u64) -> Ordering
    ensures { result ≡ size_order (whole * 2 ^ 1074) (size_of bits) }
{
    match size_of(bits) {
        Some(parts) => (whole, false).cmp(&parts),
        None => Ordering::Less,
    }
}

// A whole number against a Double.
fn whole_double(whole: Signed, bits: u64) -> Option<Ordering>
    ensures { result ≡ order_of (whole_point whole.below whole.size) (point_of bits) }
{
    let unsigned = bits % SIGN_BIT;
    if INFINITY_BITS < unsigned {
        return None;
    }
    match (whole.below, SIGN_BIT <= bits) {
        (false, false) => Some(against(whole.size, bits)),
        (true, true) => Some(against(whole.size, bits).reverse()),
        (false, true) => Some(across_zero(false, whole.size, unsigned)),
        (true, false) => Some(across_zero(true, whole.size, unsigned)),
    }
}

// Two Doubles: without their signs, the larger has the larger bits.
fn double_double(left: u64, right: u64) -> Option<Ordering>
    ensures { result ≡ order_of (point_of left) (point_of right) }
{
    let a = left % SIGN_BIT;
    let b = right % SIGN_BIT;
    if INFINITY_BITS < a || INFINITY_BITS < b {
        return None;
    }
    let first = Signed {
        below: SIGN_BIT <= left,
        size: a,
    };
    let second = Signed {
        below: SIGN_BIT <= right,
        size: b,
    };
    Some(signed_sizes(first, second))
}

// A whole number against a number of any kind.
#[tactic(auto, using(numbers_laws::proofs::WholeLaws::kinds))]
fn from_whole(whole: Signed, other: Number) -> Option<Ordering>
    ensures { result ≡ order_of (whole_point whole.below whole.size) (number_point other) }
{
    match other {
        Number::Int(z) => Some(signed_sizes(whole, Signed::from(z))),
        Number::Uint(n) => Some(signed_sizes(whole, Signed::from(n))),
        Number::Double(d) => whole_double(whole, d.to_bits()),
    }
}

// A Double against a number of any kind.
#[tactic(auto, using(numbers_laws::proofs::WholeLaws::kinds))]
fn from_double(bits: u64, other: Number) -> Option<Ordering>
    ensures { result ≡ order_of (point_of bits) (number_point other) }
{
    match other {
        Number::Int(z) => whole_double(Signed::from(z), bits).map(Ordering::reverse),
        Number::Uint(n) => whole_double(Signed::from(n), bits).map(Ordering::reverse),
        Number::Double(d) => double_double(bits, d.to_bits()),
    }
}

pub fn compare(a: Number, b: Number) -> Option<Ordering>
    ensures { result ≡ order_of (number_point a) (number_point b) }
{
    match a {
        Number::Int(z) => from_whole(Signed::from(z), b),
        Number::Uint(n) => from_whole(Signed::from(n), b),
        Number::Double(d) => from_double(d.to_bits(), b),
    }
}

pub fn equal(a: Number, b: Number) -> bool
    ensures { result ≡ is_equal (order_of (number_point a) (number_point b)) }
{
    compare(a, b) == Some(Ordering::Equal)
}
