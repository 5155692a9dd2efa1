// Equality of two values where they lie, with a count of the pairs compared, which stops at a limit.
ghost use Rattle.std.specs.Prelude.{◌≡◌};
ghost use Rattle.rooms.specs.Memory.{rooms_seen};
ghost use Rattle.rooms_comparison.specs.Equality.{decided, elements_equal, entries_equal, equal_in, equal_pairs};

use crate::lookup::{Found, find};
use crate::pairs::Pairs;
use crate::plain::plain_equal;
use rooms::memory::View;
use rooms::value::{Parts, Row, Value, nesting_of, parts_of};
use rooms_cells::cell_at;

fn verdict(same: bool, steps: usize) -> Pairs
    ensures { result ≡ decided same steps }
{
    if same {
        Pairs::Same(steps)
    } else {
        Pairs::Unlike(steps)
    }
}

// One pair, and the pairs inside it. The depth falls with each part gone into.
#[cycle(elements_entries_pair)]
fn pair(view: &View, limit: usize, depth: usize, left: Value, right: Value, steps: usize) -> Pairs
    ensures { result ≡ equal_in depth limit (rooms_seen view.now) left right steps }
{
    if depth == 0 {
        return Pairs::Unlike(steps);
    }
    if limit <= steps {
        return Pairs::Out(steps);
    }
    let within = depth - 1;
    let pairs = steps + 1;
    match parts_of(left) {
        Parts::Elements(row) => match parts_of(right) {
            Parts::Elements(there) => {
                if row.length != there.length {
                    return Pairs::Unlike(pairs);
                }
                elements(view, limit, within, row, there, pairs)
            }
            Parts::Entries(_) => Pairs::Unlike(pairs),
            Parts::Present(_, _) => Pairs::Unlike(pairs),
            Parts::Nothing => Pairs::Unlike(pairs),
        },
        Parts::Entries(row) => match parts_of(right) {
            Parts::Elements(_) => Pairs::Unlike(pairs),
            Parts::Entries(there) => {
                if row.length != there.length {
                    return Pairs::Unlike(pairs);
                }
                entries(view, limit, within, row, there, pairs)
            }
            Parts::Present(_, _) => Pairs::Unlike(pairs),
            Parts::Nothing => Pairs::Unlike(pairs),
        },
        Parts::Present(space, cell) => match parts_of(right) {
            Parts::Elements(_) => Pairs::Unlike(pairs),
            Parts::Entries(_) => Pairs::Unlike(pairs),
            Parts::Present(there, other) => {
                let part = cell_at(view, space, cell as usize);
                let against = cell_at(view, there, other as usize);
                pair(view, limit, within, part, against, pairs)
            }
            Parts::Nothing => Pairs::Unlike(pairs),
        },
        Parts::Nothing => verdict(plain_equal(view, left, right), pairs),
    }
}

// Two lists of one length, element by element.
#[cycle(elements_entries_pair)]
fn elements(view: &View, limit: usize, depth: usize, row: Row, there: Row, steps: usize) -> Pairs
    ensures { result ≡ elements_equal (λ v w j. equal_in depth limit (rooms_seen view.now) v w j) (rooms_seen view.now) row.space row.first there.space there.first row.length steps }
{
    let first = row.first as usize;
    let other = there.first as usize;
    let mut pairs = steps;
    for done in 0..row.length as usize {
        let part = cell_at(view, row.space, first + done);
        let against = cell_at(view, there.space, other + done);
        match pair(view, limit, depth, part, against, pairs) {
            Pairs::Same(more) => {
                pairs = more;
            }
            Pairs::Unlike(more) => {
                return Pairs::Unlike(more);
            }
            Pairs::Out(more) => {
                return Pairs::Out(more);
            }
        }
    }
    Pairs::Same(pairs)
}

// Two maps of one length: each key of the left one is looked up in the right one, then their values are compared.
#[cycle(elements_entries_pair)]
fn entries(view: &View, limit: usize, depth: usize, row: Row, there: Row, steps: usize) -> Pairs
    ensures { result ≡ entries_equal (λ v w j. equal_in depth limit (rooms_seen view.now) v w j) limit (rooms_seen view.now) row.space row.first there.space there.first there.length row.length steps }
{
    let first = row.first as usize;
    let mut pairs = steps;
    for done in 0..row.length as usize {
        let at = first + 2 * done;
        let key = cell_at(view, row.space, at);
        match find(view, limit, key, there, pairs) {
            Found::At(cell, looked) => {
                let part = cell_at(view, row.space, at + 1);
                let against = cell_at(view, there.space, cell);
                match pair(view, limit, depth, part, against, looked) {
                    Pairs::Same(more) => {
                        pairs = more;
                    }
                    Pairs::Unlike(more) => {
                        return Pairs::Unlike(more);
                    }
                    Pairs::Out(more) => {
                        return Pairs::Out(more);
                    }
                }
            }
            Found::Missing(looked) => {
                return Pairs::Unlike(looked);
            }
            Found::Out(looked) => {
                return Pairs::Out(looked);
            }
        }
    }
    Pairs::Same(pairs)
}

// Whether two values are equal: the count goes on from `steps`, a pair of containers being itself a pair.
pub fn equal(view: &View, limit: usize, left: Value, right: Value, steps: usize) -> Pairs
    ensures { result ≡ equal_pairs limit (rooms_seen view.now) left right steps }
{
    let depth = nesting_of(left) as usize;
    pair(view, limit, depth + 1, left, right, steps)
}
