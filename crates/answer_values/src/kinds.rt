// A value as a caller reads it: its kind, and a Bool. Every reader takes any value.
ghost use Rattle.std.specs.Prelude.{◌≡◌};
ghost use Rattle.rooms.specs.Value.{plain_of};
ghost use Rattle.answer_values.specs.Kinds.{kind_of, truth_in};

use rooms::value::{Plain, Value, plain_of};
use table_layout::kinds::{BOOL, BYTES, DOUBLE, INT, LIST, MAP, NULL, STRING, UINT};

// The kinds that no table spells: none, a present Optional, and no value. The others have their numbers in a table.
const OPTIONAL_NONE: u8 = 14;

const OPTIONAL_OF: u8 = 15;

const ABSENT: u8 = 16;

// The kinds have the numbers that they have in a cell.
pub fn kind_of(value: Value) -> u8
    ensures { result ≡ kind_of value }
{
    match value {
        Value::Null => NULL,
        Value::Bool(_) => BOOL,
        Value::Int(_) => INT,
        Value::Uint(_) => UINT,
        Value::Double(_) => DOUBLE,
        Value::Nan(_) => DOUBLE,
        Value::String(_) => STRING,
        Value::Bytes(_) => BYTES,
        Value::List(_, _) => LIST,
        Value::Map(_, _) => MAP,
        Value::OptionalNone => OPTIONAL_NONE,
        Value::OptionalOf(_, _, _) => OPTIONAL_OF,
        Value::Absent => ABSENT,
    }
}

pub fn truth_of(value: Value) -> Option<bool>
    ensures { result ≡ truth_in (plain_of value) }
{
    match plain_of(value) {
        Plain::Bool(truth) => Some(truth),
        _ => None,
    }
}
