// The size of a value, and where an index falls in a list.
ghost use Rattle.std.specs.Prelude.{◌≡◌};
ghost use Rattle.rooms.specs.Memory.{rooms_seen};
ghost use Rattle.rooms_text.specs.Sizes.{size_of, position_of, inside};

use crate::part_points;
use rooms::memory::View;
use rooms::value::Value;

// How much a value holds, if it has a size: the code points of a String, which are no more than its bytes, the bytes of Bytes, the elements of a
// List, the entries of a Map.
pub fn size_in(view: &View, value: Value) -> Option<u16>
    ensures { result ≡ size_of (rooms_seen view.now) value }
{
    match value {
        Value::String(span) => Some(part_points(view, span) as u16),
        Value::Bytes(span) => Some(span.length),
        Value::List(_, row) => Some(row.length),
        Value::Map(_, row) => Some(row.length),
        _ => None,
    }
}

// Where an index falls in a list: on an element, on none, or that it is no index.
#[derive(Clone, Copy)]
pub enum Position {
    At(usize),
    Outside,
    Unsuited,
}

fn within(index: u64, length: u16) -> Position
    ensures { result ≡ inside index length }
{
    if index < (length as u64) {
        Position::At(index as usize)
    } else {
        Position::Outside
    }
}

pub fn position_in(index: Value, length: u16) -> Position
    ensures { result ≡ position_of index length }
{
    match index {
        Value::Int(number) => {
            if number < 0 {
                return Position::Outside;
            }
            within(number as u64, length)
        }
        Value::Uint(number) => within(number, length),
        _ => Position::Unsuited,
    }
}
