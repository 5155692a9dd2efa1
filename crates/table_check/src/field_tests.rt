// Whether the fields of a record are right: numbers, flags, names and spans of the literal text.
ghost use Rattle.std.specs.Prelude.{◌≡◌, ◌&&◌, ◌+◌, ◌<◌, ◌≤◌, leb, length, get_or};
ghost use Rattle.std.specs.Prelude.{slice_get};
ghost use Rattle.meaning.specs.Kinds.{flags};
ghost use Rattle.meaning.specs.Table.{span, utf8, word_bytes};
ghost use Rattle.table_layout.specs.Layout.{word_numbers, row_of, head_bytes, word_at};
ghost use Rattle.table_layout.specs.Kinds.{byte_of};
ghost use Rattle.table_check.specs.Shapes.{numbers_of};
ghost use Rattle.table_check.specs.Fits.{is_some, fields_fit};

use table_layout::kind::Kind;
use table_layout::kinds::{BINARIES, FUNCTIONS, LAST_FLAG, NAMES, UNARIES};
use table_layout::words::{FIELDS, WORD, word_at};

// Whether a part of the literal text lies in it.
#[tactic(auto, using(crate::proofs::FieldLaws::span_is))]
fn span_fits(text: &[u8], offset: usize, size: usize) -> bool
    requires { (offset < word_numbers) × (size < word_numbers) }
    ensures { result ≡ is_some (span text.now offset size) }
{
    offset + size <= text.len()
}

// The same, and is UTF-8.
#[tactic(auto, using(crate::proofs::FieldLaws::utf8_outside, crate::proofs::FieldLaws::utf8_inside))]
fn utf8_fits(text: &[u8], offset: usize, size: usize) -> bool
    requires { (offset < word_numbers) × (size < word_numbers) }
    ensures { result ≡ is_some (utf8 (span text.now offset size)) }
{
    let end = offset + size;
    end <= text.len() && text::utf8::well_formed(&text[offset..end])
}

// Whether a number is one of 1 to another.
fn one_of(number: u8, last: u8) -> bool
    ensures { result ≡ (leb 1 number && leb number last) }
{
    (1..=last).contains(&number)
}

#[tactic(auto, using(crate::proofs::FieldLaws::flag_is))]
fn select_fits(table: &[u8], text: &[u8], at: usize) -> bool
    requires { at + (1 + word_bytes + word_bytes) ≤ length table.now }
    ensures { result ≡ (is_some (slice_get flags (get_or table.now at 0)) && is_some
        (utf8 (span text.now (word_at table.now (at + 1)) (word_at table.now (at + 1 + word_bytes))))) }
{
    table[at] <= LAST_FLAG && utf8_fits(text, word_at(table, at + 1), word_at(table, at + 1 + WORD))
}

// Whether the fields of the record at a place are right, in the order of the kinds.
#[tactic(auto, using(table_layout::proofs::WordLaws::byte_is, crate::proofs::FieldLaws::flag_is, crate::proofs::FieldLaws::name_is, crate::proofs::FieldLaws::unary_is, crate::proofs::FieldLaws::binary_is, crate::proofs::FieldLaws::function_is), unfolding(crate::specs::Fits::fields_fit, table_layout::specs::Layout::row_of, meaning::specs::Kinds::kinds, crate::specs::Shapes::numbers_of, meaning::specs::Heads::numbers_at, meaning::specs::Heads::field_bytes, meaning::specs::Heads::fields_bytes, table_layout::specs::Layout::head_bytes, table_layout::specs::Layout::word_at))]
pub fn fields_fit(table: &[u8], text: &[u8], place: usize, kind: Kind) -> bool
    requires { place + head_bytes (byte_of kind) ≤ length table.now }
    ensures { result ≡ fields_fit text.now (row_of (byte_of kind)).kind (numbers_of table.now place (byte_of kind)) }
{
    let at = place + FIELDS;
    match kind {
        Kind::Bool => table[at] <= LAST_FLAG,
        Kind::String => utf8_fits(text, word_at(table, at), word_at(table, at + WORD)),
        Kind::Bytes => span_fits(text, word_at(table, at), word_at(table, at + WORD)),
        Kind::Name => table[at] < NAMES,
        Kind::Unary => one_of(table[at], UNARIES),
        Kind::Binary => one_of(table[at], BINARIES),
        Kind::Select => select_fits(table, text, at),
        Kind::Comprehension => table[at] < NAMES && table[at + 1] < NAMES,
        Kind::Function => one_of(table[at], FUNCTIONS),
        _ => true,
    }
}
