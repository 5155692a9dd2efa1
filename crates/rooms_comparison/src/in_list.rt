// `in` a list, by equality, with its count of pairs.
ghost use Rattle.std.specs.Prelude.{◌≡◌, true};
ghost use Rattle.rooms.specs.declared.value.Parts.TheVariants.{Nothing};
ghost use Rattle.rooms.specs.Value.{parts_of};
ghost use Rattle.rooms.specs.Memory.{rooms_seen};
ghost use Rattle.rooms_comparison.specs.Equality.{among_in};

use crate::equality::equal;
use crate::pairs::Pairs;
use crate::plain::plain_equal;
use rooms::memory::View;
use rooms::value::{Parts, Row, Value, parts_of};
use rooms_cells::cell_at;

fn has_no_parts(value: Value) -> bool
    ensures { result ≡ true → parts_of value ≡ Nothing }
{
    matches!(parts_of(value), Parts::Nothing)
}

// Up to the first element that is equal to a value without parts: no cell but the elements' own is read.
fn among_plain(view: &View, limit: usize, value: Value, row: Row, steps: usize) -> Pairs
    requires { parts_of value ≡ Nothing }
    ensures { result ≡ among_in limit (rooms_seen view.now) value row.space row.first row.length steps }
{
    let first = row.first as usize;
    let mut pairs = steps;
    for done in 0..row.length as usize {
        if limit <= pairs {
            return Pairs::Out(pairs);
        }
        pairs += 1;
        let element = cell_at(view, row.space, first + done);
        if plain_equal(view, value, element) {
            return Pairs::Same(pairs);
        }
    }
    Pairs::Unlike(pairs)
}

// Up to the first element that is equal to a value that may have parts.
fn among_nested(view: &View, limit: usize, value: Value, row: Row, steps: usize) -> Pairs
    ensures { result ≡ among_in limit (rooms_seen view.now) value row.space row.first row.length steps }
{
    let first = row.first as usize;
    let mut pairs = steps;
    for done in 0..row.length as usize {
        let element = cell_at(view, row.space, first + done);
        match equal(view, limit, value, element, pairs) {
            Pairs::Same(more) => {
                return Pairs::Same(more);
            }
            Pairs::Unlike(more) => {
                pairs = more;
            }
            Pairs::Out(more) => {
                return Pairs::Out(more);
            }
        }
    }
    Pairs::Unlike(pairs)
}

// `in`: up to the first of `length` elements from cell `first` on that is equal.
pub fn among(view: &View, limit: usize, value: Value, row: Row, steps: usize) -> Pairs
    ensures { result ≡ among_in limit (rooms_seen view.now) value row.space row.first row.length steps }
{
    if has_no_parts(value) {
        among_plain(view, limit, value, row, steps)
    } else {
        among_nested(view, limit, value, row, steps)
    }
}
