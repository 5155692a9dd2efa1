// Numbers of 8 bytes: the literals Int, Uint and Double. A place is that of the record. What each function asks is that the bytes it reads lie in
// the table, as they do for an accepted record of such a kind.
ghost use Rattle.std.specs.Prelude.{◌≡◌, ◌+◌, ◌≤◌, length};
ghost use Rattle.std.specs.Int.{w64, cast_signed};
ghost use Rattle.table_layout.specs.Layout.{fields_at, long_at};

use crate::words::FIELDS;

// The 8 bytes of a Uint or a Double.
#[tactic(auto, using(crate::proofs::WordLaws::long_is))]
pub fn bits_at(table: &[u8], at: usize) -> u64
    requires { at + (fields_at + 8) ≤ length table.now }
    ensures { result ≡ long_at table.now (at + fields_at) }
{
    let first = at + FIELDS;
    u64::from_le_bytes([
        table[first],
        table[first + 1],
        table[first + 2],
        table[first + 3],
        table[first + 4],
        table[first + 5],
        table[first + 6],
        table[first + 7],
    ])
}

// The 8 bytes of an Int.
pub fn int_at(table: &[u8], at: usize) -> i64
    requires { at + (fields_at + 8) ≤ length table.now }
    ensures { result ≡ cast_signed w64 (long_at table.now (at + fields_at)) }
{
    bits_at(table, at).cast_signed()
}
