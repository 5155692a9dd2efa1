// `+` of what is no number, by what the left operand is.
ghost use Rattle.eval_outcomes.specs.Gives.{Gives};
ghost use Rattle.eval_arithmetic.specs.Sums.{sum_of};

use crate::list_sum::sum_parts;
use crate::text_sum::{bytes_sum, string_sum};
use eval_outcomes::outcomes::no_overload;
use machine::outcome::{Outcome, Used};
use rooms::memory::Lent;
use rooms::value::{Plain, Value, plain_of};

// A text or a list: `+` alone.
pub(crate) fn sum(lent: &mut Lent, left: Value, right: Value, at: usize, used: Used) -> Outcome
    ensures { Gives result lent.old lent.new (λ r. sum_of at left right used r) }
{
    match plain_of(left) {
        Plain::String(span) => string_sum(lent, span, right, at, used),
        Plain::Bytes(span) => bytes_sum(lent, span, right, at, used),
        Plain::Other => sum_parts(lent, left, right, at, used),
        _ => no_overload(at, used),
    }
}
