// Text where it lies, and the sizes of values.
// Here: a part of a space, two parts compared, and the code points of one. `sizes` has the size of a value, and where an index falls in a list.
#![tactic(auto)]

pub mod sizes;

ghost use Rattle.std.specs.Prelude.{◌≡◌};
ghost use Rattle.text.specs.Bytes.{equal_of, order_of};
ghost use Rattle.text.specs.Utf8.{code_points};
ghost use Rattle.rooms.specs.Rooms.{part};
ghost use Rattle.rooms.specs.Memory.{rooms_seen, spanned};

use rooms::memory::View;
use rooms::value::{Span, TextSpace};
use std::cmp::Ordering;

// The bytes of a text from `first` on: `length` of them, or as many as there are.
pub fn part(bytes: &[u8], first: usize, length: usize) -> &[u8]
    ensures { result.now ≡ part bytes.now first length }
{
    let end = bytes.len();
    if end <= first {
        return &bytes[end..];
    }
    if end - first <= length {
        return &bytes[first..];
    }
    let last = first + length;
    &bytes[first..last]
}

// The bytes of a span.
pub fn part_in<'a>(view: &View<'a>, span: Span) -> &'a [u8]
    ensures { result.now ≡ spanned (rooms_seen view.now) span }
{
    let first = span.first as usize;
    let length = span.length as usize;
    match span.space {
        TextSpace::Literal => part(view.literal, first, length),
        TextSpace::Binding => part(view.binding_text, first, length),
        TextSpace::Evaluation => part(view.text, first, length),
    }
}

// How two spans stand, the first against the second.
pub fn parts_compare(view: &View, span: Span, other: Span) -> Ordering
    ensures { result ≡ order_of (spanned (rooms_seen view.now) span) (spanned (rooms_seen view.now) other) }
{
    text::bytes::compare(part_in(view, span), part_in(view, other))
}

// Whether two spans hold the same bytes.
pub fn parts_equal(view: &View, span: Span, other: Span) -> bool
    ensures { result ≡ equal_of (spanned (rooms_seen view.now) span) (spanned (rooms_seen view.now) other) }
{
    text::bytes::equal(part_in(view, span), part_in(view, other))
}

// The code points of a span.
pub fn part_points(view: &View, span: Span) -> usize
    ensures { result ≡ code_points (spanned (rooms_seen view.now) span) }
{
    text::utf8::code_points(part_in(view, span))
}
