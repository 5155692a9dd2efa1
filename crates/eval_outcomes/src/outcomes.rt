// What many rules share: outcomes, counts, and what is seen of a value.
ghost use Rattle.std.specs.Prelude.{◌≡◌, ◌+◌, ◌<◌, ◌^◌};
ghost use Rattle.machine.specs.Outcomes.{stepped, with_steps, with_cells, with_bytes, truth_out, no_overload};
ghost use Rattle.rooms.specs.Value.{plain_of};
ghost use Rattle.machine.specs.Views.{bool_in, plain_none, optional_in};
ghost use Rattle.eval_outcomes.specs.Seen.{optional_seen};

use machine::outcome::{Error, Limit, Outcome, Used};
use rooms::value::{CellSpace, Parts, Plain, Value, parts_of, plain_of};

// A record begins.
pub fn stepped(used: Used) -> Used
    requires { used.steps + 1 < 2 ^ 64 }
    ensures { result ≡ stepped used }
{
    Used {
        steps: used.steps + 1,
        ..used
    }
}

pub fn with_steps(used: Used, steps: usize) -> Used
    ensures { result ≡ with_steps used steps }
{
    Used { steps, ..used }
}

pub fn with_cells(used: Used, cells: usize) -> Used
    ensures { result ≡ with_cells used cells }
{
    Used { cells, ..used }
}

pub fn with_bytes(used: Used, bytes: usize) -> Used
    ensures { result ≡ with_bytes used bytes }
{
    Used { bytes, ..used }
}

pub fn truth_out(b: bool, used: Used) -> Outcome
    ensures { result ≡ truth_out b used }
{
    Outcome::Value(Value::Bool(b), used)
}

pub fn no_overload(at: usize, used: Used) -> Outcome
    ensures { result ≡ no_overload at used }
{
    Outcome::Error(Error::NoOverload, at, used)
}

pub fn out_of_steps(used: Used) -> Outcome
    ensures { result ≡ Outcome.Exhausted Limit.Steps used }
{
    Outcome::Exhausted(Limit::Steps, used)
}

pub fn out_of_cells(used: Used) -> Outcome
    ensures { result ≡ Outcome.Exhausted Limit.Cells used }
{
    Outcome::Exhausted(Limit::Cells, used)
}

pub fn truth_of(v: Value) -> Option<bool>
    ensures { result ≡ bool_in v }
{
    match plain_of(v) {
        Plain::Bool(truth) => Some(truth),
        _ => None,
    }
}

// What a value is as an Optional.
// Three ways: an Option of an Option would not say which None is no Optional, and which is an Optional without a part.
#[derive(Clone, Copy)]
pub enum Optional {
    Not,
    None,
    // Where its part lies.
    Present(CellSpace, u16),
}

fn none_of(v: Value) -> Optional
    ensures { optional_seen result ≡ plain_none (plain_of v) }
{
    match plain_of(v) {
        Plain::OptionalNone => Optional::None,
        _ => Optional::Not,
    }
}

pub fn optional_of(v: Value) -> Optional
    ensures { optional_seen result ≡ optional_in v }
{
    match parts_of(v) {
        Parts::Present(space, cell) => Optional::Present(space, cell),
        Parts::Nothing => none_of(v),
        _ => Optional::Not,
    }
}
