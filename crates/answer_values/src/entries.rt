// The keys and values of a Map by their index. Every reader takes any value.
ghost use Rattle.std.specs.Prelude.{◌≡◌, ◌<◌};
ghost use Rattle.rooms.specs.Value.{parts_of};
ghost use Rattle.answer_values.specs.Entries.{entry_from, key_in, value_in};

use crate::elements::words_in;
use rooms::value::{Parts, Value, parts_of};
use rooms_cells::read_cell;

// Cell `index` of `length` cells that begin at `first` and stand two apart; `Absent` where `index` is not below `length`.
fn entry_from(words: &[u64], first: usize, length: u16, index: usize) -> Value
    requires { first < 65537 }
    ensures { result ≡ entry_from words.now first length index }
{
    if index < length as usize {
        read_cell(words, first + 2 * index)
    } else {
        Value::Absent
    }
}

// The key of entry `index` of a Map, and its value; `Absent` where there is none.
pub fn key_of(binding_cells: &[u64], cells: &[u64], value: Value, index: usize) -> Value
    ensures { result ≡ key_in binding_cells.now cells.now (parts_of value) index }
{
    match parts_of(value) {
        Parts::Entries(row) => {
            let words = words_in(binding_cells, cells, row.space);
            entry_from(words, row.first as usize, row.length, index)
        }
        _ => Value::Absent,
    }
}

pub fn value_of(binding_cells: &[u64], cells: &[u64], value: Value, index: usize) -> Value
    ensures { result ≡ value_in binding_cells.now cells.now (parts_of value) index }
{
    match parts_of(value) {
        Parts::Entries(row) => {
            let words = words_in(binding_cells, cells, row.space);
            entry_from(words, row.first as usize + 1, row.length, index)
        }
        _ => Value::Absent,
    }
}
