// The literals of an accepted table.
ghost use Rattle.std.specs.Prelude.{◌≡◌, ◌+◌, ◌<◌, ◌≤◌, length, get_or};
ghost use Rattle.table_layout.specs.Layout.{kind_numbers, head_bytes};
ghost use Rattle.bindings_literals.specs.Literals.{literal_value, text_length, text_first, moved_to};

use rooms::value::{Span, TextSpace, Value, double_value};
use table_layout::fields::{number_at, span_at};
use table_layout::kinds::{BOOL, BYTES, DOUBLE, INT, NULL, STRING, UINT};
use table_layout::number_literals::{bits_at, int_at};
use table_layout::outline::kind_at;

// The value of a literal, its text where it lies; absent for any other record.
pub fn literal_at(table: &[u8], at: usize) -> Value
    requires { (get_or table.now at 0 < kind_numbers) × (at + head_bytes (get_or table.now at 0) ≤ length table.now) }
    ensures { result ≡ literal_value table.now at }
{
    match kind_at(table, at) {
        NULL => Value::Null,
        BOOL => Value::Bool(number_at(table, at) == 1),
        INT => Value::Int(int_at(table, at)),
        UINT => Value::Uint(bits_at(table, at)),
        DOUBLE => double_value(bits_at(table, at)),
        STRING => {
            let span = span_at(table, at);
            Value::String(Span {
                space: TextSpace::Literal,
                first: span.offset as u16,
                length: span.size as u16,
            })
        }
        BYTES => {
            let span = span_at(table, at);
            Value::Bytes(Span {
                space: TextSpace::Literal,
                first: span.offset as u16,
                length: span.size as u16,
            })
        }
        _ => Value::Absent,
    }
}

// How long its text is.
pub fn text_length(v: Value) -> usize
    ensures { (result ≡ text_length v) × (result < 65536) }
{
    match v {
        Value::String(span) | Value::Bytes(span) => span.length as usize,
        _ => 0,
    }
}

// Where it begins.
pub fn text_first(v: Value) -> u16
    ensures { result ≡ text_first v }
{
    match v {
        Value::String(span) | Value::Bytes(span) => span.first,
        _ => 0,
    }
}

// The same value with its text in the bindings' text, from a place on.
pub fn moved_to(to: u16, v: Value) -> Value
    ensures { result ≡ moved_to to v }
{
    match v {
        Value::String(span) => Value::String(Span {
            space: TextSpace::Binding,
            first: to,
            length: span.length,
        }),
        Value::Bytes(span) => Value::Bytes(Span {
            space: TextSpace::Binding,
            first: to,
            length: span.length,
        }),
        Value::Absent => Value::Null,
        _ => v,
    }
}
