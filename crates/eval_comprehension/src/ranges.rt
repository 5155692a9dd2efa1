// What a comprehension goes over, and whether it begins with an empty list.
ghost use Rattle.std.specs.Prelude.{◌≡◌};
ghost use Rattle.rooms.specs.Value.{parts_of};
ghost use Rattle.machine.specs.Comprehension.{items_parts, empty_parts};

use machine::items::Items;
use rooms::value::{Parts, Value, parts_of};

// A List's elements, or the keys of a Map.
pub fn range_of(v: Value) -> Option<Items>
    ensures { result ≡ items_parts (parts_of v) }
{
    let (row, stride) = match parts_of(v) {
        Parts::Elements(row) => (row, 1),
        Parts::Entries(row) => (row, 2),
        _ => return None,
    };
    Some(Items {
        space: row.space,
        first: row.first,
        count: row.length,
        stride,
    })
}

// From an empty list alone the append path is taken.
pub fn is_empty_list(v: Value) -> bool
    ensures { result ≡ empty_parts (parts_of v) }
{
    match parts_of(v) {
        Parts::Elements(row) => row.length == 0,
        _ => false,
    }
}
