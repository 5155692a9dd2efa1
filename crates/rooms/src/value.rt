// A value as the evaluator has it: a scalar by itself, text and containers by where they lie.
ghost use Rattle.std.specs.Prelude.{◌≡◌};
ghost use Rattle.rooms.specs.Value.{nesting_of, parts_of, double_value, plain_of, is_key};
ghost use Rattle.numbers.specs.Double.{double_of};

use numbers::double::Double;
use numbers::order::Number;

// The spaces that text lies in: a table's literals, what bindings brought, what the run made.
#[derive(Clone, Copy, PartialEq, Eq)]
pub enum TextSpace {
    Literal,
    Binding,
    Evaluation,
}

// The spaces that cells lie in.
#[derive(Clone, Copy, PartialEq, Eq)]
pub enum CellSpace {
    Binding,
    Evaluation,
}

// Bytes one after the other: their space, the first of them, how many.
#[derive(Clone, Copy, PartialEq, Eq)]
pub struct Span {
    pub space: TextSpace,
    pub first: u16,
    pub length: u16,
}

// Cells one after the other, or entries, which are two cells each.
#[derive(Clone, Copy, PartialEq, Eq)]
pub struct Row {
    pub space: CellSpace,
    pub first: u16,
    pub length: u16,
}

#[derive(Clone, Copy)]
pub enum Value {
    Null,
    Bool(bool),
    Int(i64),
    Uint(u64),
    // Every number and infinity. (A float NaN here stands for the NaN that arithmetic gives.)
    Double(f64),
    // The bits of a NaN.
    Nan(u64),
    // Where the text lies.
    String(Span),
    Bytes(Span),
    // Nesting; then where the elements lie.
    List(u8, Row),
    // The same; an entry is two cells, its key and its value.
    Map(u8, Row),
    OptionalNone,
    // Nesting; then where the part lies: space, cell.
    OptionalOf(u8, CellSpace, u16),
    // No value: what a name without a binding has, and what words that are no value are read as.
    Absent,
}

// What a value is made of.
#[derive(Clone, Copy)]
pub enum Parts {
    // Where they lie.
    Elements(Row),
    Entries(Row),
    Present(CellSpace, u16),
    Nothing,
}

// Containers and present Optionals inside one another.
pub const DEEPEST: u8 = 32;

pub fn nesting_of(value: Value) -> u8
    ensures { result ≡ nesting_of value }
{
    match value {
        Value::List(nesting, _) => nesting,
        Value::Map(nesting, _) => nesting,
        Value::OptionalOf(nesting, _, _) => nesting,
        _ => 0,
    }
}

pub fn parts_of(value: Value) -> Parts
    ensures { result ≡ parts_of value }
{
    match value {
        Value::List(_, row) => Parts::Elements(row),
        Value::Map(_, row) => Parts::Entries(row),
        Value::OptionalOf(_, space, cell) => Parts::Present(space, cell),
        _ => Parts::Nothing,
    }
}

// The Double with these bits.
pub fn double_value(bits: u64) -> Value
    ensures { result ≡ double_value (double_of bits) }
{
    match Double::from_bits(bits) {
        Double::Plain(float) => Value::Double(float),
        Double::Nan(pattern) => Value::Nan(pattern),
    }
}

// A value that is no container and no present Optional.
#[derive(Clone, Copy)]
pub enum Plain {
    Null,
    Bool(bool),
    Number(Number),
    // Where the text lies.
    String(Span),
    Bytes(Span),
    OptionalNone,
    Other,
}

pub fn plain_of(value: Value) -> Plain
    ensures { result ≡ plain_of value }
{
    match value {
        Value::Null => Plain::Null,
        Value::Bool(truth) => Plain::Bool(truth),
        Value::Int(number) => Plain::Number(Number::Int(number)),
        Value::Uint(number) => Plain::Number(Number::Uint(number)),
        Value::Double(float) => Plain::Number(Number::Double(Double::Plain(float))),
        Value::Nan(pattern) => Plain::Number(Number::Double(Double::Nan(pattern))),
        Value::String(span) => Plain::String(span),
        Value::Bytes(span) => Plain::Bytes(span),
        Value::OptionalNone => Plain::OptionalNone,
        _ => Plain::Other,
    }
}

// Whether a value may be a map's key.
pub fn is_key(value: Value) -> bool
    ensures { result ≡ is_key value }
{
    matches!(
        value,
        Value::Bool(_) | Value::Int(_) | Value::Uint(_) | Value::String(_)
    )
}
