// Equality of two values without parts, by what is seen of them without looking into cells.
ghost use Rattle.std.specs.Prelude.{◌≡◌};
ghost use Rattle.rooms.specs.Rooms.{Rooms};
ghost use Rattle.meaning.specs.Value.{null, bool, string, bytes};
ghost use Rattle.rooms.specs.Value.{plain_of};
ghost use Rattle.rooms.specs.Memory.{rooms_seen, spanned};
ghost use Rattle.rooms_comparison.specs.Seen.{seen_scalar, seen_none, number_scalar, seen_plain, same_seen};

use numbers::order::Number;
use rooms::memory::View;
use rooms::value::{Plain, Span, Value, plain_of};
use rooms_text::parts_equal;

fn same_null(other: Plain) -> bool
    ensures { (r : Rooms) → result ≡ same_seen (seen_scalar null) (seen_plain r other) }
{
    matches!(other, Plain::Null)
}

fn same_none(other: Plain) -> bool
    ensures { (r : Rooms) → result ≡ same_seen seen_none (seen_plain r other) }
{
    matches!(other, Plain::OptionalNone)
}

fn same_bool(left: bool, other: Plain) -> bool
    ensures { (r : Rooms) → result ≡ same_seen (seen_scalar (bool left)) (seen_plain r other) }
{
    let Plain::Bool(right) = other else {
        return false;
    };
    left == right
}

// Numbers of all kinds are equal where they are the same point of the exact line.
fn same_number(left: Number, other: Plain) -> bool
    ensures { (r : Rooms) → result ≡ same_seen (seen_scalar (number_scalar left)) (seen_plain r other) }
{
    let Plain::Number(right) = other else {
        return false;
    };
    numbers_order::equal(left, right)
}

fn same_string(view: &View, span: Span, other: Plain) -> bool
    ensures { result ≡ same_seen (seen_scalar (string (spanned (rooms_seen view.now) span))) (seen_plain (rooms_seen view.now) other) }
{
    let Plain::String(second) = other else {
        return false;
    };
    parts_equal(view, span, second)
}

fn same_bytes(view: &View, span: Span, other: Plain) -> bool
    ensures { result ≡ same_seen (seen_scalar (bytes (spanned (rooms_seen view.now) span))) (seen_plain (rooms_seen view.now) other) }
{
    let Plain::Bytes(second) = other else {
        return false;
    };
    parts_equal(view, span, second)
}

// Whether two values without parts are equal, by the kind of the first.
fn equal_by_kind(view: &View, first: Value, second: Value) -> bool
    ensures { result ≡ same_seen (seen_plain (rooms_seen view.now) (plain_of first)) (seen_plain (rooms_seen view.now) (plain_of second)) }
{
    let left = plain_of(first);
    let right = plain_of(second);
    match left {
        Plain::Null => same_null(right),
        Plain::Bool(value) => same_bool(value, right),
        Plain::Number(number) => same_number(number, right),
        Plain::String(span) => same_string(view, span, right),
        Plain::Bytes(span) => same_bytes(view, span, right),
        Plain::OptionalNone => same_none(right),
        Plain::Other => false,
    }
}

// Whether two values without parts are equal. Two Strings, which most keys are, are asked for first.
pub fn key_equal(view: &View, first: Value, second: Value) -> bool
    ensures { result ≡ same_seen (seen_plain (rooms_seen view.now) (plain_of first)) (seen_plain (rooms_seen view.now) (plain_of second)) }
{
    if let Value::String(span) = first {
        if let Value::String(other) = second {
            return parts_equal(view, span, other);
        }
    }
    equal_by_kind(view, first, second)
}

// The same; two Ints are asked for first: they need no number line.
pub fn plain_equal(view: &View, first: Value, second: Value) -> bool
    ensures { result ≡ same_seen (seen_plain (rooms_seen view.now) (plain_of first)) (seen_plain (rooms_seen view.now) (plain_of second)) }
{
    if let Value::Int(one) = first {
        if let Value::Int(other) = second {
            return one == other;
        }
    }
    key_equal(view, first, second)
}
