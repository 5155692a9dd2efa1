// Where a value's text lies and how many parts it has, as a caller reads it. Every reader takes any value.
ghost use Rattle.std.specs.Prelude.{◌≡◌};
ghost use Rattle.rooms.specs.Value.{parts_of, plain_of};
ghost use Rattle.answer_values.specs.SpansAndCounts.{span_in, count_in};

use rooms::value::{Parts, Plain, Span, Value, parts_of, plain_of};

// Of a String or of Bytes.
pub fn text_of(value: Value) -> Option<Span>
    ensures { result ≡ span_in (plain_of value) }
{
    match plain_of(value) {
        Plain::String(span) => Some(span),
        Plain::Bytes(span) => Some(span),
        _ => None,
    }
}

// How many elements or entries; of a present Optional 1, of anything else 0.
pub fn count_of(value: Value) -> u16
    ensures { result ≡ count_in (parts_of value) }
{
    match parts_of(value) {
        Parts::Elements(row) => row.length,
        Parts::Entries(row) => row.length,
        Parts::Present(_, _) => 1,
        Parts::Nothing => 0,
    }
}
