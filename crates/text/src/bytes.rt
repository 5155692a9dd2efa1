// Two texts compared by their bytes: which comes first, and whether they are the same.
ghost use Rattle.std.specs.Prelude.{◌≡◌};
ghost use Rattle.text.specs.Bytes.{order_of, equal_of};

use std::cmp::Ordering;

// The first byte that differs decides. Where there is none, the shorter text comes first.
#[tactic(auto, using(crate::proofs::BytesLaws::by_bytes))]
pub fn compare(left: &[u8], right: &[u8]) -> Ordering
    ensures { result ≡ order_of left.now right.now }
{
    left.cmp(&right)
}

// Texts of different lengths are told apart without a look at their bytes.
#[tactic(auto, using(crate::proofs::BytesLaws::pointwise_equal))]
pub fn equal(left: &[u8], right: &[u8]) -> bool
    ensures { result ≡ equal_of left.now right.now }
{
    left == right
}
