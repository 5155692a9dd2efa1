// The append path of a comprehension: the runs of cells that it has collected, and the list of them all.
ghost use Rattle.std.specs.Prelude.{◌≡◌, ◌<◌, ◌^◌, eqb, get_or, set};
ghost use Rattle.rooms.specs.Memory.{Changes};
ghost use Rattle.machine.specs.Comprehension.{add_run, gathered, nothing_gathered};
ghost use Rattle.eval_outcomes.specs.Gives.{Gives};
ghost use Rattle.eval_comprehension.specs.AppendResult.{gathered_in, gathered_by, copies_of};

use eval_outcomes::outcomes::{out_of_cells, with_cells};
use machine::outcome::{Outcome, Used};
use rooms::memory::Lent;
use rooms::value::{CellSpace, Row, Value};
use rooms_taking::copying::copy_cells;
use rooms_taking::take_cells;

// A turn that gathers takes at least two cells, and there are at most 4,096: so many runs are enough.
pub const MOST_RUNS: usize = 2048;

// Cells of the evaluation, one after the other: the first, and how many.
#[derive(Clone, Copy)]
pub struct Run {
    pub first: u16,
    pub length: u16,
}

// How many runs of cells, how many elements in them, and the nesting of a list of those.
#[derive(Clone, Copy)]
pub struct Collected {
    pub runs: usize,
    pub count: usize,
    pub nesting: u8,
}

// An element becomes `number`, where it is there.
fn store_number(list: &mut [u16], index: usize, number: u16)
    ensures { list.new ≡ set list.old index number }
{
    if index < list.len() {
        list[index] = number;
    }
}

fn number_at(list: &[u16], index: usize) -> u16
    ensures { result ≡ get_or list.now index 0 }
{
    if index < list.len() { list[index] } else { 0 }
}

// A turn without elements adds no run.
pub fn add_run(
    firsts: &mut [u16],
    counts: &mut [u16],
    collected: Collected,
    run: Run,
    nesting: u8,
) -> Collected
    requires { (collected.runs < 2 ^ 32) × (collected.count < 2 ^ 32) }
    ensures { gathered_in firsts.new counts.new result ≡ add_run (eqb run.length 0) (gathered_in firsts.old counts.old collected) run.first run.length nesting }
{
    let nesting = collected.nesting.max(nesting);
    if run.length == 0 {
        return Collected {
            nesting,
            ..collected
        };
    }
    store_number(firsts, collected.runs, run.first);
    store_number(counts, collected.runs, run.length);
    Collected {
        runs: collected.runs + 1,
        count: collected.count + run.length as usize,
        nesting,
    }
}

// The runs, one after the other, are copied to the cells from `to` on.
fn copy_runs(lent: &mut Lent, firsts: &[u16], counts: &[u16], runs: usize, to: usize)
    requires { (runs < 2 ^ 32) × (to < 2 ^ 32) }
    ensures { Changes lent.old lent.new (λ r. copies_of firsts.now counts.now runs 0 to r) }
{
    let mut place = to;
    for index in 0..runs {
        let first = number_at(firsts, index);
        let length = number_at(counts, index);
        let row = Row {
            space: CellSpace::Evaluation,
            first,
            length,
        };
        copy_cells(lent, row, place);
        place += length as usize;
    }
}

// The list of all that was collected. It nests as deep as the deepest items list, so its nesting needs no test.
pub fn collected_list(
    lent: &mut Lent,
    firsts: &[u16],
    counts: &[u16],
    collected: Collected,
    used: Used,
) -> Outcome
    requires { collected.runs < 2 ^ 32 }
    ensures { Gives result lent.old lent.new (λ r. gathered (gathered_in firsts.now counts.now collected) used r) }
{
    let base = used.cells;
    let count = collected.count;
    let Some(end) = take_cells(lent.cells, base, count) else {
        return out_of_cells(used);
    };
    copy_runs(lent, firsts, counts, collected.runs, base);
    let row = Row {
        space: CellSpace::Evaluation,
        first: base as u16,
        length: count as u16,
    };
    Outcome::Value(Value::List(collected.nesting, row), with_cells(used, end))
}

// As many runs as there can be: where each stands, how many cells it has, and how much was collected.
// Two arrays, since `add_run` and `collected_list` take two slices, each of any length.
#[derive(Drop)]
pub struct Runs {
    pub firsts: [u16; MOST_RUNS],
    pub counts: [u16; MOST_RUNS],
    pub collected: Collected,
}

impl Runs {
    pub fn nothing() -> Runs
        ensures { gathered_by result ≡ nothing_gathered }
    {
        Runs {
            firsts: [0; MOST_RUNS],
            counts: [0; MOST_RUNS],
            collected: Collected {
                runs: 0,
                count: 0,
                nesting: 1,
            },
        }
    }

    pub fn add(&mut self, run: Run, nesting: u8)
        requires { (self.old.collected.runs < 2 ^ 32) × (self.old.collected.count < 2 ^ 32) }
        ensures { gathered_by self.new ≡ add_run (eqb run.length 0) (gathered_by self.old) run.first run.length nesting }
    {
        self.collected = add_run(
            &mut self.firsts,
            &mut self.counts,
            self.collected,
            run,
            nesting,
        );
    }

    pub fn list(&self, lent: &mut Lent, used: Used) -> Outcome
        requires { self.now.collected.runs < 2 ^ 32 }
        ensures { Gives result lent.old lent.new (λ r. gathered (gathered_by self.now) used r) }
    {
        collected_list(lent, &self.firsts, &self.counts, self.collected, used)
    }
}
