// An element of a List record: what its mark makes of it, and its cell.
ghost use Rattle.std.specs.Prelude.{◌≡◌, ◌<◌, true};
ghost use Rattle.rooms.specs.Memory.{rooms_seen};
ghost use Rattle.machine.specs.Views.{part_in};
ghost use Rattle.eval_outcomes.specs.Gives.{Gives};
ghost use Rattle.eval_containers.specs.Filling.{added_of};

use crate::Ready;
use eval_outcomes::outcomes::{Optional, optional_of};
use rooms::memory::{Lent, View};
use rooms::value::{Value, nesting_of};
use rooms_cells::{cell_at, store};

fn unmarked_value(view: &View, v: Value) -> Option<Value>
    ensures { result ≡ part_in (rooms_seen view.now) true v }
{
    match optional_of(v) {
        Optional::Not => Some(v),
        Optional::None => None,
        Optional::Present(space, cell) => Some(cell_at(view, space, cell as usize)),
    }
}

// What an element or an entry's value adds, if anything.
pub fn part_of(view: &View, marked: bool, v: Value) -> Option<Value>
    ensures { result ≡ part_in (rooms_seen view.now) marked v }
{
    if marked {
        unmarked_value(view, v)
    } else {
        Some(v)
    }
}

pub fn add_element(lent: &mut Lent, first: u16, ready: Ready, marked: bool, v: Value) -> Ready
    requires { ready.count < 65536 }
    ensures { Gives result lent.old lent.new (λ r. added_of first ready (part_in r marked v) r) }
{
    let Some(part) = part_of(&lent.view(), marked, v) else {
        return ready;
    };
    store(lent, (first as usize) + ready.count, part);
    Ready {
        count: ready.count + 1,
        deep: ready.deep.max(nesting_of(part)),
    }
}
