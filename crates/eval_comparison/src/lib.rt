// `==`, `!=`, the orderings and `in`, by the rules of the crate rooms_comparison.
// Here: all of these but `in`, which is in `membership`.
#![tactic(auto)]

pub mod membership;

ghost use Rattle.std.specs.Prelude.{◌≡◌};
ghost use Rattle.std.specs.Bool.{beq};
ghost use Rattle.meaning.specs.Comparison.{holds};
ghost use Rattle.rooms.specs.Memory.{rooms_seen};
ghost use Rattle.meaning.specs.Comparison.{holds};
ghost use Rattle.machine.specs.Outcomes.{truth_out};
ghost use Rattle.machine.specs.Comparison.{on_pairs, equal_out, ordered_out, compare_out};
ghost use Rattle.eval_outcomes.specs.Seen.{comparison_seen};

use eval_outcomes::operators::Comparison;
use eval_outcomes::outcomes::{no_overload, out_of_steps, truth_out, with_steps};
use machine::outcome::{Error, Outcome, Used};
use rooms::memory::View;
use rooms::value::Value;
use rooms_comparison::equality::equal;
use rooms_comparison::ordering::Compared;
use rooms_comparison::pairs::Pairs;
use std::cmp::Ordering;

// `same` is what two equal values give.
fn from_pairs(pairs: Pairs, same: bool, used: Used) -> Outcome
    ensures { result ≡ on_pairs pairs used (λ b u. truth_out (beq same b) u) }
{
    match pairs {
        Pairs::Same(steps) => truth_out(same, with_steps(used, steps)),
        Pairs::Unlike(steps) => truth_out(!same, with_steps(used, steps)),
        Pairs::Out(steps) => out_of_steps(with_steps(used, steps)),
    }
}

pub fn equals(
    view: &View,
    limit: usize,
    same: bool,
    left: Value,
    right: Value,
    used: Used,
) -> Outcome
    ensures { result ≡ equal_out limit same left right used (rooms_seen view.now) }
{
    from_pairs(equal(view, limit, left, right, used.steps), same, used)
}

// Whether the operator holds of two values in this order.
#[tactic(auto, unfolding(meaning::specs::Comparison::holds))]
fn holds(operator: Comparison, order: Ordering) -> bool
    ensures { result ≡ holds (comparison_seen operator) order }
{
    match operator {
        Comparison::Less => order.is_lt(),
        Comparison::LessEquals => order.is_le(),
        Comparison::Greater => order.is_gt(),
        Comparison::GreaterEquals => order.is_ge(),
    }
}

fn ordered(operator: Comparison, order: Option<Ordering>, at: usize, used: Used) -> Outcome
    ensures { result ≡ ordered_out (comparison_seen operator) at used order }
{
    match order {
        Some(order) => truth_out(holds(operator, order), used),
        None => Outcome::Error(Error::Unordered, at, used),
    }
}

#[tactic(auto, unfolding(rooms_comparison::specs::Seen::seen_in))]
pub fn compare(
    view: &View,
    operator: Comparison,
    left: Value,
    right: Value,
    at: usize,
    used: Used,
) -> Outcome
    ensures { result ≡ compare_out (comparison_seen operator) at left right used (rooms_seen view.now) }
{
    match rooms_comparison::ordering::compare(view, left, right) {
        Compared::Is(order) => ordered(operator, order, at, used),
        Compared::Unlike => no_overload(at, used),
    }
}
