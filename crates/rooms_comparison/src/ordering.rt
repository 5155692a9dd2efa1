// The order of two values of one kind, numbers being of one kind.
ghost use Rattle.std.specs.Prelude.{◌≡◌};
ghost use Rattle.rooms.specs.Rooms.{Rooms};
ghost use Rattle.meaning.specs.Value.{bool, string, bytes};
ghost use Rattle.rooms.specs.Value.{plain_of};
ghost use Rattle.rooms.specs.Memory.{rooms_seen, spanned};
ghost use Rattle.rooms_comparison.specs.Seen.{seen_scalar, number_scalar, seen_plain};
ghost use Rattle.rooms_comparison.specs.Order.{order_seen, compared_of};

use numbers::order::Number;
use rooms::memory::View;
use rooms::value::{Plain, Span, Value, plain_of};
use rooms_text::parts_compare;
use std::cmp::Ordering;

// How two values of one kind stand, in no order where one of two numbers is NaN; or that they are of two kinds, or have no order.
// (An Option in an Option would not say which of the two is none.)
#[derive(Clone, Copy)]
pub enum Compared {
    Is(Option<Ordering>),
    Unlike,
}

// False comes before true.
fn compare_bool(left: bool, other: Plain) -> Compared
    ensures { (r : Rooms) → result ≡ compared_of (order_seen (seen_scalar (bool left)) (seen_plain r other)) }
{
    let Plain::Bool(right) = other else {
        return Compared::Unlike;
    };
    Compared::Is(Some(left.cmp(&right)))
}

fn compare_number(left: Number, other: Plain) -> Compared
    ensures { (r : Rooms) → result ≡ compared_of (order_seen (seen_scalar (number_scalar left)) (seen_plain r other)) }
{
    let Plain::Number(right) = other else {
        return Compared::Unlike;
    };
    Compared::Is(numbers_order::compare(left, right))
}

fn compare_string(view: &View, span: Span, other: Plain) -> Compared
    ensures { result ≡ compared_of (order_seen (seen_scalar (string (spanned (rooms_seen view.now) span))) (seen_plain (rooms_seen view.now) other)) }
{
    let Plain::String(second) = other else {
        return Compared::Unlike;
    };
    Compared::Is(Some(parts_compare(view, span, second)))
}

fn compare_bytes(view: &View, span: Span, other: Plain) -> Compared
    ensures { result ≡ compared_of (order_seen (seen_scalar (bytes (spanned (rooms_seen view.now) span))) (seen_plain (rooms_seen view.now) other)) }
{
    let Plain::Bytes(second) = other else {
        return Compared::Unlike;
    };
    Compared::Is(Some(parts_compare(view, span, second)))
}

// The order of two values of one kind, numbers being of one kind.
pub fn compare(view: &View, first: Value, second: Value) -> Compared
    ensures { result ≡ compared_of (order_seen (seen_plain (rooms_seen view.now) (plain_of first)) (seen_plain (rooms_seen view.now) (plain_of second))) }
{
    let left = plain_of(first);
    let right = plain_of(second);
    match left {
        Plain::Null => Compared::Unlike,
        Plain::Bool(value) => compare_bool(value, right),
        Plain::Number(number) => compare_number(number, right),
        Plain::String(span) => compare_string(view, span, right),
        Plain::Bytes(span) => compare_bytes(view, span, right),
        Plain::OptionalNone => Compared::Unlike,
        Plain::Other => Compared::Unlike,
    }
}
