// An entry of a Map record: the duplicate test, and its cells.
ghost use Rattle.std.specs.Prelude.{◌<◌};
ghost use Rattle.machine.specs.Views.{part_in};
ghost use Rattle.eval_outcomes.specs.Gives.{GivesCells};
ghost use Rattle.eval_containers.specs.Filling.{inserted_of, entered_of};

use crate::Ready;
use crate::elements::part_of;
use eval_outcomes::outcomes::{out_of_steps, with_steps};
use machine::outcome::{Error, Outcome, Used};
use rooms::memory::Inputs;
use rooms::value::{CellSpace, Row, Value, nesting_of};
use rooms_cells::write_cell;
use rooms_comparison::lookup::{Found, find};

// The parts that are ready after an entry, and what is used with it.
#[derive(Clone, Copy)]
pub struct Entered {
    pub ready: Ready,
    pub used: Used,
}

// The duplicate test, then both cells.
fn insert(
    inputs: &Inputs,
    cells: &mut [u64],
    text: &[u8],
    limit: usize,
    first: u16,
    ready: Ready,
    key: Value,
    v: Value,
    at: usize,
    used: Used,
) -> Result<Entered, Outcome>
    requires { ready.count < 65536 }
    ensures { GivesCells result inputs.now text.now cells.old cells.new (λ r. inserted_of limit at first ready key v used r) }
{
    let stored = Row {
        space: CellSpace::Evaluation,
        first,
        length: ready.count as u16,
    };
    match find(&inputs.view(cells, text), limit, key, stored, used.steps) {
        Found::At(_, more) => Err(Outcome::Error(Error::DuplicateKey, at, with_steps(used, more))),
        Found::Out(more) => Err(out_of_steps(with_steps(used, more))),
        Found::Missing(more) => {
            let cell = (first as usize) + ready.count * 2;
            write_cell(cells, cell, key);
            write_cell(cells, cell + 1, v);
            let grown = Ready {
                count: ready.count + 1,
                deep: ready.deep.max(nesting_of(v)),
            };
            Ok(Entered {
                ready: grown,
                used: with_steps(used, more),
            })
        }
    }
}

// A marked none makes no test.
pub fn add_entry(
    inputs: &Inputs,
    cells: &mut [u64],
    text: &[u8],
    limit: usize,
    first: u16,
    ready: Ready,
    key: Value,
    marked: bool,
    v: Value,
    at: usize,
    used: Used,
) -> Result<Entered, Outcome>
    requires { ready.count < 65536 }
    ensures { GivesCells result inputs.now text.now cells.old cells.new (λ r. entered_of limit at first ready key (part_in r marked v) used r) }
{
    let Some(part) = part_of(&inputs.view(cells, text), marked, v) else {
        return Ok(Entered { ready, used });
    };
    insert(
        inputs, cells, text, limit, first, ready, key, part, at, used,
    )
}
