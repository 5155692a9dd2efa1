// After the other operand: what both came to, joined.
ghost use Rattle.std.specs.Prelude.{◌≡◌};
ghost use Rattle.rooms.specs.Memory.{rooms_seen};
ghost use Rattle.eval_outcomes.specs.Gives.{Gives};
ghost use Rattle.eval_shapes.specs.Next.{with_default, join_of};

use crate::two_values::after_right;
use eval_functions::optional_value::or_value;
use eval_shapes::next::Fixed;
use machine::outcome::{Outcome, Used};
use rooms::memory::{Lent, View};
use rooms::value::Value;

fn after_target(view: &View, default: Outcome, target: Value, at: usize, used: Used) -> Outcome
    ensures { result ≡ with_default at default target used (rooms_seen view.now) }
{
    let Outcome::Value(other, _) = default else {
        return default;
    };
    or_value(view, other, target, at, used)
}

// An error or exhaustion of the operand that is begun last is the answer, whatever the first one gave: of `x || y` with two errors the right one.
pub fn after_both(
    lent: &mut Lent,
    limit: usize,
    at: usize,
    fixed: Fixed,
    first: Outcome,
    second: Outcome,
) -> Outcome
    ensures { Gives result lent.old lent.new (λ r. join_of limit at fixed first second r) }
{
    let Outcome::Value(value, used) = second else {
        return second;
    };
    match fixed {
        Fixed::Binary(operator) => after_right(lent, limit, operator, first, value, at, used),
        Fixed::OrValue => after_target(&lent.view(), first, value, at, used),
        _ => second,
    }
}
