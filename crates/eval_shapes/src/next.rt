// A record of fixed operands: what follows the operand that is begun first, the answer or another operand. Here for a condition and a default.
ghost use Rattle.std.specs.Prelude.{◌≡◌};
ghost use Rattle.eval_logic.specs.Conditions.{asked_of};
ghost use Rattle.eval_shapes.specs.Next.{ask_next, value_next};

use eval_logic::conditions::{Asked, asks};
use eval_outcomes::operators::{Binary, Function, Unary};
use machine::outcome::{Outcome, Used};

// One operand is begun, or two.
#[derive(Clone, Copy)]
pub enum Fixed {
    Unary(Unary),
    Binary(Binary),
    Conditional,
    // Whether it is a test, has(e.field).
    Select(bool),
    Call(Function),
    OrValue,
}

// The place of another operand to begin, or the answer. Not a Result: the answer is no failure, and nobody hands it on with `?`, since what calls for
// the next operand gives an Outcome either way.
#[derive(Clone, Copy)]
pub enum Next {
    At(usize, Used),
    Stop(Outcome),
}

pub fn after_condition(condition: Outcome, at: usize, second: usize, third: usize) -> Next
    ensures { result ≡ ask_next (asked_of at condition) second third }
{
    match asks(condition, at) {
        Asked::Holds(used) => Next::At(second, used),
        Asked::Fails(used) => Next::At(third, used),
        Asked::Ends(outcome) => Next::Stop(outcome),
    }
}

pub fn after_default(default: Outcome, target: usize) -> Next
    ensures { result ≡ value_next default target }
{
    match default {
        Outcome::Value(_, used) => Next::At(target, used),
        _ => Next::Stop(default),
    }
}
