// List and Map records in the making. Both take their cells as they begin.
// Here: those cells, a key, and the whole. `elements` stores an element of a List, and `entries` tests and stores an entry of a Map.
#![tactic(auto)]

pub mod elements;
pub mod entries;

ghost use Rattle.std.specs.Prelude.{◌≡◌, ◌<◌};
ghost use Rattle.machine.specs.Outcomes.{whole};
ghost use Rattle.rooms.specs.Spans.{row};
ghost use Rattle.eval_outcomes.specs.Gives.{Gives};
ghost use Rattle.eval_containers.specs.Filling.{begun_of, keyed_of, made_of};

use eval_outcomes::outcomes::with_cells;
use machine::outcome::{Error, Limit, Outcome, Used};
use rooms::memory::Lent;
use rooms::value::{CellSpace, DEEPEST, Row, Value, is_key};

// The cells of a record that begins: the first of them, how many parts it has, and what is used with them.
#[derive(Clone, Copy)]
pub struct Begun {
    pub first: u16,
    pub parts: u16,
    pub used: Used,
}

// So many cells for so many parts; none if there is not enough room.
pub fn begin(lent: &mut Lent, parts: usize, count: usize, used: Used) -> Option<Begun>
    requires { parts < 65536 }
    ensures { Gives result lent.old lent.new (λ r. begun_of parts count used r) }
{
    let first = used.cells;
    let end = rooms_taking::take_cells(lent.cells, first, count)?;
    Some(Begun {
        first: first as u16,
        parts: parts as u16,
        used: with_cells(used, end),
    })
}

// The parts that are ready: how many, and how deep the deepest nests.
#[derive(Clone, Copy)]
pub struct Ready {
    pub count: usize,
    pub deep: u8,
}

// ---- the whole

// What the parts make.
#[derive(Clone, Copy)]
pub enum Container {
    List,
    Map,
}

fn made_of(container: Container, nesting: u8, row: Row) -> Value
    ensures { result ≡ made_of container nesting row }
{
    match container {
        Container::List => Value::List(nesting, row),
        Container::Map => Value::Map(nesting, row),
    }
}

// All parts are ready.
pub fn whole_of(container: Container, first: u16, ready: Ready, used: Used) -> Outcome
    requires { ready.count < 65536 }
    ensures { result ≡ whole ready.deep (λ d. made_of container d (row CellSpace.Evaluation first ready.count)) used }
{
    if DEEPEST <= ready.deep {
        return Outcome::Exhausted(Limit::Nesting, used);
    }
    let length = ready.count as u16;
    let row = Row {
        space: CellSpace::Evaluation,
        first,
        length,
    };
    Outcome::Value(made_of(container, ready.deep + 1, row), used)
}

// ---- keys

// A value that may be a key, and what is used with it.
#[derive(Clone, Copy)]
pub struct Key {
    pub value: Value,
    pub used: Used,
}

// The key that an operand gave, or what goes out in its place.
pub fn key_of(operand: Outcome, at: usize) -> Result<Key, Outcome>
    ensures { result ≡ keyed_of at operand }
{
    let Outcome::Value(value, used) = operand else {
        return Err(operand);
    };
    if is_key(value) {
        Ok(Key { value, used })
    } else {
        Err(Outcome::Error(Error::UnsupportedKeyType, at, used))
    }
}
