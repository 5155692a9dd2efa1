// After the left operand of a binary operator: its answer, or the right operand.
ghost use Rattle.std.specs.Prelude.{◌≡◌};
ghost use Rattle.machine.specs.Views.{optional_in};
ghost use Rattle.machine.specs.Machine.{wants_value, unless_none, index_left, left_of};
ghost use Rattle.eval_outcomes.specs.Seen.{binary_seen};
ghost use Rattle.eval_shapes.specs.Next.{go_next};

use eval_logic::deciding::logic_left;
use eval_outcomes::operators::Binary;
use eval_outcomes::outcomes::{Optional, optional_of};
use eval_shapes::next::Next;
use machine::outcome::{Outcome, Used};
use rooms::value::Value;

fn unless_none(value: Value, used: Used) -> Option<Used>
    ensures { result ≡ unless_none (optional_in value) used }
{
    match optional_of(value) {
        Optional::None => None,
        _ => Some(used),
    }
}

// The index of none is not begun.
fn index_left(left: Outcome) -> Option<Used>
    ensures { result ≡ index_left left }
{
    let Outcome::Value(value, used) = left else {
        return None;
    };
    unless_none(value, used)
}

fn value_left(left: Outcome) -> Option<Used>
    ensures { result ≡ wants_value left }
{
    let Outcome::Value(_, used) = left else {
        return None;
    };
    Some(used)
}

// With which counts the right operand is begun; if it is not, what the left one gave is the answer.
fn binary_left(operator: Binary, left: Outcome) -> Option<Used>
    ensures { result ≡ left_of (binary_seen operator) left }
{
    match operator {
        Binary::Logic(fold) => logic_left(fold, left),
        Binary::Index | Binary::OptionalIndex => index_left(left),
        _ => value_left(left),
    }
}

pub fn after_left(operator: Binary, left: Outcome, second: usize) -> Next
    ensures { result ≡ go_next (left_of (binary_seen operator) left) second left }
{
    match binary_left(operator, left) {
        Some(used) => Next::At(second, used),
        None => Next::Stop(left),
    }
}
