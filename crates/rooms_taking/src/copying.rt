// Parts of a value are copied to where room was taken for them.
ghost use Rattle.std.specs.Prelude.{◌≡◌, cond, ◌<◌, ◌^◌, length, get_or, set};
ghost use Rattle.rooms.specs.declared.value.TextSpace.TheVariants.{Literal};
ghost use Rattle.rooms.specs.Rooms.{text_of, with_words, with_text};
ghost use Rattle.rooms.specs.Memory.{Changes};
ghost use Rattle.rooms_taking.specs.Taking.{copied, pasted};

use rooms::memory::Lent;
use rooms::value::{Row, Span, TextSpace};
use rooms_cells::{cell_at, store};

// Cells of a row are copied, one after the other, to the evaluation's cells from `to` on.
pub fn copy_cells(lent: &mut Lent, row: Row, to: usize)
    requires { to < 2 ^ 48 }
    ensures { Changes lent.old lent.new (λ r. with_words r (copied r.binding_cells row.space r.cells row.first to row.length)) }
{
    let from = row.first as usize;
    for done in 0..row.length as usize {
        let value = cell_at(&lent.view(), row.space, from + done);
        store(lent, to + done, value);
    }
}

// Byte `index` of a space; 0 where there is none.
fn byte_at(literal: &[u8], binding_text: &[u8], text: &[u8], space: TextSpace, index: usize) -> u8
    ensures { result ≡ get_or (text_of literal.now binding_text.now text.now space) index 0 }
{
    match space {
        TextSpace::Literal => byte_in(literal, index),
        TextSpace::Binding => byte_in(binding_text, index),
        TextSpace::Evaluation => byte_in(text, index),
    }
}

fn byte_in(bytes: &[u8], index: usize) -> u8
    ensures { result ≡ get_or bytes.now index 0 }
{
    if index < bytes.len() { bytes[index] } else { 0 }
}

fn put_byte(bytes: &mut [u8], index: usize, byte: u8)
    ensures { bytes.new ≡ set bytes.old index byte }
{
    if index < bytes.len() {
        bytes[index] = byte;
    }
}

// Bytes of a space are copied, one after the other; a byte that is not there or has no room is left out.
fn copy_each(
    literal: &[u8],
    binding_text: &[u8],
    text: &mut [u8],
    space: TextSpace,
    first: u16,
    length: u16,
    to: u16,
)
    ensures { text.new ≡ pasted literal.now binding_text.now space text.old first to length }
{
    for done in 0..length as usize {
        let byte = byte_at(literal, binding_text, text, space, first as usize + done);
        put_byte(text, to as usize + done, byte);
    }
}

// Bytes of another slice are copied at once, if all of them are there and have room. There is no test between two bytes, so the compiler copies
// many at once. (`copy_from_slice` calls `memmove`, which nothing else in the archive for C needs from outside.)
fn copied_whole(from: &[u8], text: &mut [u8], first: u16, length: u16, to: u16) -> bool
    ensures { text.new ≡ cond result (pasted from.now from.now Literal text.old first to length)
        text.old }
{
    let start = first as usize;
    let place = to as usize;
    let count = length as usize;
    if from.len() < start + count {
        return false;
    }
    if text.len() < place + count {
        return false;
    }
    for done in 0..count {
        text[place + done] = from[start + done];
    }
    true
}

fn copied_at_once(
    literal: &[u8],
    binding_text: &[u8],
    text: &mut [u8],
    space: TextSpace,
    first: u16,
    length: u16,
    to: u16,
) -> bool
    ensures { text.new ≡ cond result (pasted literal.now binding_text.now space text.old first to length)
        text.old }
{
    match space {
        TextSpace::Literal => copied_whole(literal, text, first, length, to),
        TextSpace::Binding => copied_whole(binding_text, text, first, length, to),
        TextSpace::Evaluation => false,
    }
}

// Bytes of a space are copied, one after the other, to a text from `to` on.
pub fn paste(
    literal: &[u8],
    binding_text: &[u8],
    text: &mut [u8],
    space: TextSpace,
    first: u16,
    length: u16,
    to: u16,
)
    ensures { text.new ≡ pasted literal.now binding_text.now space text.old first to length }
{
    if copied_at_once(literal, binding_text, text, space, first, length, to) {
        return;
    }
    copy_each(literal, binding_text, text, space, first, length, to);
}

// The bytes of a span are copied, one after the other, to the evaluation's text from `to` on.
pub fn copy_text(lent: &mut Lent, span: Span, to: u16)
    ensures { Changes lent.old lent.new (λ r. with_text r (pasted r.literal r.binding_text span.space r.text span.first to span.length)) }
{
    let text = &mut *lent.text;
    paste(
        lent.literal,
        lent.binding_text,
        text,
        span.space,
        span.first,
        span.length,
        to,
    );
}
