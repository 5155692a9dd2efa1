// Words and heads: all that depends on the width of a word. What each function asks is that the bytes it reads lie in the table.
ghost use Rattle.std.specs.Prelude.{◌≡◌, ◌+◌, ◌<◌, ◌≤◌, length};
ghost use Rattle.meaning.specs.Table.{word_bytes};
ghost use Rattle.table_layout.specs.Layout.{word_numbers, fields_at, head_bytes, word_at};
ghost use Rattle.table_layout.specs.Kinds.{byte_of};

use crate::kind::Kind;

// Bytes of a word: an extent, an offset, a length or a count.
pub const WORD: usize = 2;

// From a record's place to its first field.
pub const FIELDS: usize = 1 + WORD;

// To what follows a field of one byte; to the length that follows an offset, alone and after such a field.
pub const AFTER_NUMBER: usize = FIELDS + 1;

pub const SPAN_SIZE: usize = FIELDS + WORD;

pub const FIELD_SIZE: usize = FIELDS + 1 + WORD;

// The word at a place.
#[tactic(auto, using(crate::proofs::WordLaws::word_is))]
pub fn word_at(table: &[u8], at: usize) -> usize
    requires { at + word_bytes ≤ length table.now }
    ensures { (result ≡ word_at table.now at) × (result < word_numbers) }
{
    usize::from(u16::from_le_bytes([table[at], table[at + 1]]))
}

// Bytes of an Int, a Uint or a Double.
pub const LONG: usize = 8;

// From a record's place to its first operand, by kind.
#[tactic(auto, unfolding(crate::specs::Layout::head_bytes, crate::specs::Layout::row_of, meaning::specs::Kinds::kinds, meaning::specs::Heads::fields_bytes, meaning::specs::Heads::field_bytes))]
pub fn head_bytes(kind: Kind) -> usize
    ensures { (result ≡ head_bytes (byte_of kind)) × (fields_at ≤ result) × (result ≤ fields_at + 1 + word_bytes + word_bytes + 8) }
{
    match kind {
        Kind::Null | Kind::Conditional | Kind::Mark => FIELDS,
        Kind::Bool | Kind::Name | Kind::Unary | Kind::Binary | Kind::Function => FIELDS + 1,
        Kind::Int | Kind::Uint | Kind::Double => FIELDS + LONG,
        Kind::String | Kind::Bytes => FIELDS + WORD + WORD,
        Kind::Select => FIELDS + 1 + WORD + WORD,
        Kind::List | Kind::Map => FIELDS + WORD,
        Kind::Comprehension => FIELDS + 2,
    }
}
