// What becomes of a look-up: a present Optional or none, whether there is something, or what was found.
ghost use Rattle.std.specs.Prelude.{◌≡◌};
ghost use Rattle.rooms.specs.Rooms.{Rooms};
ghost use Rattle.machine.specs.Selection.{optionally, tells, perhaps, select_in_container, select_in_map};
ghost use Rattle.eval_outcomes.specs.Gives.{GivesCellsAlone};
ghost use Rattle.eval_selection.specs.Untouched.{InMap};

use eval_functions::optional_of::present;
use eval_outcomes::outcomes::truth_out;
use machine::outcome::Outcome;
use rooms::value::Value;

// A present Optional, or none for any error; exhaustion stays what it is.
pub fn optionally(cells: &mut [u64], found: Outcome) -> Outcome
    ensures { GivesCellsAlone result cells.old cells.new (λ r. optionally found r) }
{
    match found {
        Outcome::Value(value, used) => present(cells, value, used),
        Outcome::Error(_, _, used) => Outcome::Value(Value::OptionalNone, used),
        Outcome::Exhausted(limit, used) => Outcome::Exhausted(limit, used),
    }
}

// Whether it found something.
fn tells(found: Outcome) -> Outcome
    ensures { result ≡ tells found }
{
    match found {
        Outcome::Value(_, used) => truth_out(true, used),
        Outcome::Error(_, _, used) => truth_out(false, used),
        Outcome::Exhausted(_, _) => found,
    }
}

pub fn perhaps(cells: &mut [u64], optional: bool, found: Outcome) -> Outcome
    ensures { GivesCellsAlone result cells.old cells.new (λ r. perhaps optional found r) }
{
    if optional {
        optionally(cells, found)
    } else {
        found
    }
}

pub fn select_in_container(cells: &mut [u64], test: bool, found: Outcome) -> Outcome
    ensures { GivesCellsAlone result cells.old cells.new (λ r. select_in_container test found r) }
{
    if test {
        tells(found)
    } else {
        optionally(cells, found)
    }
}

pub fn select_in_map(test: bool, found: Outcome) -> Outcome
    ensures { (q : Rooms) → InMap result q (select_in_map test found q) }
{
    if test { tells(found) } else { found }
}
