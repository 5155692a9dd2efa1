// The elements of a List by their index, and what a present Optional holds. Every reader takes any value.
ghost use Rattle.std.specs.Prelude.{◌≡◌};
ghost use Rattle.rooms.specs.Value.{parts_of};
ghost use Rattle.rooms.specs.Rooms.{words_of};
ghost use Rattle.answer_values.specs.Elements.{cell_from, element_in, present_in};

use rooms::value::{CellSpace, Parts, Value, parts_of};
use rooms_cells::read_cell;

// The words of a space. These two slices are all that a caller in C lends to read a value (`board_c`), so they come alone, and not in a `View`.
pub(crate) fn words_in<'a>(
    binding_cells: &'a [u64],
    cells: &'a [u64],
    space: CellSpace,
) -> &'a [u64]
    ensures { result.now ≡ words_of binding_cells.now cells.now space }
{
    match space {
        CellSpace::Binding => binding_cells,
        CellSpace::Evaluation => cells,
    }
}

// Cell `index` of the `length` cells from `first` on; `Absent` where `index` is not below `length`.
fn cell_from(words: &[u64], first: u16, length: u16, index: usize) -> Value
    ensures { result ≡ cell_from words.now first length index }
{
    if index < length as usize {
        read_cell(words, first as usize + index)
    } else {
        Value::Absent
    }
}

// Element `index` of a List; `Absent` where there is none.
pub fn element_of(binding_cells: &[u64], cells: &[u64], value: Value, index: usize) -> Value
    ensures { result ≡ element_in binding_cells.now cells.now (parts_of value) index }
{
    match parts_of(value) {
        Parts::Elements(row) => {
            let words = words_in(binding_cells, cells, row.space);
            cell_from(words, row.first, row.length, index)
        }
        _ => Value::Absent,
    }
}

// What a present Optional holds; `Absent` of anything else.
pub fn present_in(binding_cells: &[u64], cells: &[u64], value: Value) -> Value
    ensures { result ≡ present_in binding_cells.now cells.now (parts_of value) }
{
    match parts_of(value) {
        Parts::Present(space, cell) => {
            let words = words_in(binding_cells, cells, space);
            read_cell(words, cell as usize)
        }
        _ => Value::Absent,
    }
}
