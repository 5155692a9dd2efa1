// The fields of a record of an accepted table: one reader for each shape of body. A place is that of the record. What each asks is that the bytes
// it reads lie in the table, as they do for an accepted record of such a kind.
ghost use Rattle.std.specs.Prelude.{◌≡◌, ◌+◌, ◌<◌, ◌≤◌, length, get_or};
ghost use Rattle.meaning.specs.Table.{word_bytes};
ghost use Rattle.table_layout.specs.Layout.{word_numbers, fields_at, word_at};

use crate::words::{AFTER_NUMBER, FIELD_SIZE, FIELDS, SPAN_SIZE, word_at};

// A part of the literal text.
#[derive(Clone, Copy)]
pub struct Span {
    pub offset: usize,
    pub size: usize,
}

// The only or the first byte: a flag, a name, the number of an operator or a function.
pub fn number_at(table: &[u8], at: usize) -> u8
    requires { at + (fields_at + 1) ≤ length table.now }
    ensures { result ≡ get_or table.now (at + fields_at) 0 }
{
    table[at + FIELDS]
}

// The second: a comprehension's item.
pub fn second_at(table: &[u8], at: usize) -> u8
    requires { at + (fields_at + 2) ≤ length table.now }
    ensures { result ≡ get_or table.now (at + (fields_at + 1)) 0 }
{
    table[at + AFTER_NUMBER]
}

// How many elements or pairs.
pub fn count_at(table: &[u8], at: usize) -> usize
    requires { at + (fields_at + word_bytes) ≤ length table.now }
    ensures { (result ≡ word_at table.now (at + fields_at)) × (result < word_numbers) }
{
    word_at(table, at + FIELDS)
}

// The text of a String or Bytes.
pub fn span_at(table: &[u8], at: usize) -> Span
    requires { at + (fields_at + word_bytes + word_bytes) ≤ length table.now }
    ensures { (result.offset ≡ word_at table.now (at + fields_at)) × (result.size ≡ word_at table.now (at + (fields_at + word_bytes))) }
{
    let offset = word_at(table, at + FIELDS);
    let size = word_at(table, at + SPAN_SIZE);
    Span { offset, size }
}

// The field that is selected.
pub fn field_at(table: &[u8], at: usize) -> Span
    requires { at + (fields_at + 1 + word_bytes + word_bytes) ≤ length table.now }
    ensures { (result.offset ≡ word_at table.now (at + (fields_at + 1))) × (result.size ≡ word_at table.now (at + (fields_at + 1 + word_bytes))) }
{
    let offset = word_at(table, at + AFTER_NUMBER);
    let size = word_at(table, at + FIELD_SIZE);
    Span { offset, size }
}
