// A cell is two words: a head, with the kind, space, nesting and length, and a payload. A value is packed into them, and they are taken apart.
ghost use Rattle.std.specs.Prelude.{◌≡◌, ◌<◌};
ghost use Rattle.rooms.specs.Cells.{signed_of, word_of, text_number, cell_number, bit_of, packed, head_of, payload_of, text_place, cell_place, bare_of, text_of, container_of};

use numbers::double::Double;
use rooms::value::{CellSpace, Row, Span, TextSpace, Value};

// The kinds, numbered as in a table; what no table spells has numbers of its own.
const NULL: u64 = 0;

const BOOL: u64 = 1;

const INT: u64 = 2;

const UINT: u64 = 3;

const DOUBLE: u64 = 4;

pub const STRING: u64 = 5;

pub const BYTES: u64 = 6;

pub const LIST: u64 = 12;

pub const MAP: u64 = 13;

const OPTIONAL_NONE: u64 = 14;

pub const OPTIONAL_OF: u64 = 15;

// Of no value.
const ABSENT: u64 = 16;

// Where the fields of a head begin: below the first of these the kind, then the space, the nesting and the length.
pub const SPACE_UNIT: u64 = 0x100;

pub const NESTING_UNIT: u64 = 0x1_0000;

pub const LENGTH_UNIT: u64 = 0x100_0000;

const WIDEST: u64 = 0xFFFF;

const SIGN_BIT: u64 = 0x8000_0000_0000_0000;

const ALL_ONES: u64 = 0xFFFF_FFFF_FFFF_FFFF;

// An Int as a word, in two's complement, and back.
fn word_of(number: i64) -> u64
    ensures { result ≡ word_of number }
{
    number.cast_unsigned()
}

fn signed_of(word: u64) -> i64
    ensures { result ≡ signed_of word }
{
    word.cast_signed()
}

// The number of a text space in a cell, and where a value is shown as words.
pub fn text_number(space: TextSpace) -> u64
    ensures { result ≡ text_number space }
{
    match space {
        TextSpace::Literal => 0,
        TextSpace::Binding => 1,
        TextSpace::Evaluation => 2,
    }
}

fn cell_number(space: CellSpace) -> u64
    ensures { result ≡ cell_number space }
{
    match space {
        CellSpace::Binding => 0,
        CellSpace::Evaluation => 1,
    }
}

fn head(kind: u64, space: u64, nesting: u8, length: u16) -> u64
    requires { (kind < 256) × (space < 256) }
    ensures { result ≡ packed kind space nesting length }
{
    kind + space * SPACE_UNIT + (nesting as u64) * NESTING_UNIT + (length as u64) * LENGTH_UNIT
}

pub fn head_of(value: Value) -> u64
    ensures { result ≡ head_of value }
{
    match value {
        Value::Null => NULL,
        Value::Bool(_) => BOOL,
        Value::Int(_) => INT,
        Value::Uint(_) => UINT,
        Value::Double(_) => DOUBLE,
        Value::Nan(_) => DOUBLE,
        Value::String(span) => head(STRING, text_number(span.space), 0, span.length),
        Value::Bytes(span) => head(BYTES, text_number(span.space), 0, span.length),
        Value::List(nesting, row) => head(LIST, cell_number(row.space), nesting, row.length),
        Value::Map(nesting, row) => head(MAP, cell_number(row.space), nesting, row.length),
        Value::OptionalNone => OPTIONAL_NONE,
        Value::OptionalOf(nesting, space, _) => head(OPTIONAL_OF, cell_number(space), nesting, 0),
        Value::Absent => ABSENT,
    }
}

pub fn payload_of(value: Value) -> u64
    ensures { result ≡ payload_of value }
{
    match value {
        Value::Null => 0,
        Value::Bool(truth) => u64::from(truth),
        Value::Int(number) => word_of(number),
        Value::Uint(number) => number,
        Value::Double(float) => Double::Plain(float).to_bits(),
        Value::Nan(bits) => bits,
        Value::String(span) => span.first as u64,
        Value::Bytes(span) => span.first as u64,
        Value::List(_, row) => row.first as u64,
        Value::Map(_, row) => row.first as u64,
        Value::OptionalNone => 0,
        Value::OptionalOf(_, _, cell) => cell as u64,
        Value::Absent => 0,
    }
}

// Where a text lies, if the fields of a head and a payload say it.
fn text_place(space: u64, first: u64, length: u64) -> Option<Span>
    ensures { result ≡ text_place space first length }
{
    if WIDEST < first {
        return None;
    }
    if WIDEST < length {
        return None;
    }
    match space {
        0 => Some(Span {
            space: TextSpace::Literal,
            first: first as u16,
            length: length as u16,
        }),
        1 => Some(Span {
            space: TextSpace::Binding,
            first: first as u16,
            length: length as u16,
        }),
        2 => Some(Span {
            space: TextSpace::Evaluation,
            first: first as u16,
            length: length as u16,
        }),
        _ => None,
    }
}

// Where cells lie, if they say it.
fn cell_place(space: u64, first: u64, length: u64) -> Option<Row>
    ensures { result ≡ cell_place space first length }
{
    if WIDEST < first {
        return None;
    }
    if WIDEST < length {
        return None;
    }
    match space {
        0 => Some(Row {
            space: CellSpace::Binding,
            first: first as u16,
            length: length as u16,
        }),
        1 => Some(Row {
            space: CellSpace::Evaluation,
            first: first as u16,
            length: length as u16,
        }),
        _ => None,
    }
}

// A value without fields in its head.
pub fn bare_value(kind: u64, payload: u64) -> Value
    ensures { result ≡ bare_of kind payload }
{
    match kind {
        NULL => match payload {
            0 => Value::Null,
            _ => Value::Absent,
        },
        BOOL => match payload {
            0 => Value::Bool(false),
            1 => Value::Bool(true),
            _ => Value::Absent,
        },
        INT => Value::Int(signed_of(payload)),
        UINT => Value::Uint(payload),
        DOUBLE => rooms::value::double_value(payload),
        OPTIONAL_NONE => match payload {
            0 => Value::OptionalNone,
            _ => Value::Absent,
        },
        _ => Value::Absent,
    }
}

pub fn text_value(kind: u64, space: u64, nesting: u64, first: u64, length: u64) -> Value
    ensures { result ≡ text_of kind nesting (text_place space first length) }
{
    let Some(span) = text_place(space, first, length) else {
        return Value::Absent;
    };
    if nesting != 0 {
        return Value::Absent;
    }
    match kind {
        STRING => Value::String(span),
        _ => Value::Bytes(span),
    }
}

pub fn container(kind: u64, space: u64, nesting: u64, first: u64, length: u64) -> Value
    ensures { result ≡ container_of kind nesting (cell_place space first length) }
{
    let Some(row) = cell_place(space, first, length) else {
        return Value::Absent;
    };
    if 255 < nesting {
        return Value::Absent;
    }
    let deep = nesting as u8;
    match kind {
        LIST => Value::List(deep, row),
        MAP => Value::Map(deep, row),
        _ => match row.length {
            0 => Value::OptionalOf(deep, row.space, row.first),
            _ => Value::Absent,
        },
    }
}
