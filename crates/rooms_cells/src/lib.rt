// A cell is two words of a lent slice: a head, with the kind, space, nesting and length, and a payload. Values are written and read here alone.
// For every pair of words there is a value, or none: `Value::Absent`. Two zeros are Null, so cells are cleared to Null.
// `packing` makes the two words of a value, and takes them apart.
#![tactic(auto)]

pub mod packing;

ghost use Rattle.std.specs.Prelude.{◌≡◌};
ghost use Rattle.rooms.specs.Cells.{cell_of, cell_in, written_in};
ghost use Rattle.rooms.specs.Rooms.{cell_at, with_words};
ghost use Rattle.rooms.specs.Memory.{rooms_seen, Changes};

use crate::packing::{
    BYTES, LENGTH_UNIT, LIST, MAP, NESTING_UNIT, OPTIONAL_OF, SPACE_UNIT, STRING, bare_value,
    container, head_of, payload_of, text_value,
};
use rooms::memory::{Lent, View};
use rooms::value::{CellSpace, Value};

fn value_of(head: u64, payload: u64) -> Value
    ensures { result ≡ cell_of head payload }
{
    // The kinds below have no fields in their heads, and most cells are of one of them.
    if head < STRING {
        return bare_value(head, payload);
    }
    let kind = head % SPACE_UNIT;
    let space = head / SPACE_UNIT % SPACE_UNIT;
    let nesting = head / NESTING_UNIT % SPACE_UNIT;
    let length = head / LENGTH_UNIT;
    match kind {
        STRING => text_value(kind, space, nesting, payload, length),
        BYTES => text_value(kind, space, nesting, payload, length),
        LIST => container(kind, space, nesting, payload, length),
        MAP => container(kind, space, nesting, payload, length),
        OPTIONAL_OF => container(kind, space, nesting, payload, length),
        _ => {
            if kind == head {
                bare_value(kind, payload)
            } else {
                Value::Absent
            }
        }
    }
}

// Cell `index` of the words.
pub fn read_cell(words: &[u64], index: usize) -> Value
    ensures { result ≡ cell_in words.now index }
{
    if index < words.len() / 2 {
        value_of(words[index * 2], words[index * 2 + 1])
    } else {
        Value::Absent
    }
}

// Where there is no cell `index`, nothing is written.
pub fn write_cell(words: &mut [u64], index: usize, value: Value)
    ensures { words.new ≡ written_in words.old index value }
{
    if index < words.len() / 2 {
        words[index * 2] = head_of(value);
        words[index * 2 + 1] = payload_of(value);
    }
}

// Cell `index` of a space.
pub fn cell_at(view: &View, space: CellSpace, index: usize) -> Value
    ensures { result ≡ cell_at (rooms_seen view.now) space index }
{
    match space {
        CellSpace::Binding => read_cell(view.binding_cells, index),
        CellSpace::Evaluation => read_cell(view.cells, index),
    }
}

// A value in cell `index` of the evaluation's, where there is one.
pub fn store(lent: &mut Lent, index: usize, value: Value)
    ensures { Changes lent.old lent.new (λ r. with_words r (written_in r.cells index value)) }
{
    write_cell(lent.cells, index, value);
}
