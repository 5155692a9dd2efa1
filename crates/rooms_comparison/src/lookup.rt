// The look-up of a key among a map's entries, with a count of the pairs compared, which stops at a limit.
ghost use Rattle.std.specs.Prelude.{◌≡◌};
ghost use Rattle.rooms.specs.Memory.{rooms_seen};
ghost use Rattle.rooms_comparison.specs.LookUp.{find_in};

use crate::plain::key_equal;
use rooms::memory::View;
use rooms::value::{Row, Value};
use rooms_cells::cell_at;

// What a look-up came to, with the pairs counted so far: the cell of the entry's value, no entry, or the limit.
#[derive(Clone, Copy)]
pub enum Found {
    At(usize, usize),
    Missing(usize),
    Out(usize),
}

// Of `length` entries from cell `first` on, the first whose key is equal to the probe: a pair for each key looked at.
pub fn find(view: &View, limit: usize, probe: Value, row: Row, steps: usize) -> Found
    ensures { result ≡ find_in limit (rooms_seen view.now) probe row.space row.first row.length steps }
{
    let first = row.first as usize;
    let mut pairs = steps;
    for done in 0..row.length as usize {
        let at = first + 2 * done;
        if limit <= pairs {
            return Found::Out(pairs);
        }
        pairs += 1;
        let key = cell_at(view, row.space, at);
        if key_equal(view, probe, key) {
            return Found::At(at + 1, pairs);
        }
    }
    Found::Missing(pairs)
}
