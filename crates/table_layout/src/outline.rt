// The outline of a record: its kind, where it ends and where its operands begin. A place is that of the record. What each function asks is that
// the bytes it reads lie in the table, as they do for an accepted record.
ghost use Rattle.std.specs.Prelude.{◌≡◌, ◌+◌, ◌<◌, ◌≤◌, length, get_or};
ghost use Rattle.table_layout.specs.Layout.{kind_numbers, fields_at, head_bytes, after};

use crate::kind::known;
use crate::words::{head_bytes, word_at};

pub fn kind_at(table: &[u8], at: usize) -> u8
    requires { at < length table.now }
    ensures { result ≡ get_or table.now at 0 }
{
    table[at]
}

// Where the record ends: the place of what follows it.
pub fn end_at(table: &[u8], at: usize) -> usize
    requires { at + fields_at ≤ length table.now }
    ensures { result ≡ after table.now at }
{
    at + word_at(table, at + 1)
}

// The place of its first operand, and, with or without one, of the record that begins next.
pub fn first_operand(table: &[u8], at: usize) -> usize
    requires { (at < length table.now) × (get_or table.now at 0 < kind_numbers) }
    ensures { result ≡ at + head_bytes (get_or table.now at 0) }
{
    at + head_bytes(known(table[at]))
}
