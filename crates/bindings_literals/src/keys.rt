// The keys of a Map in an accepted table: whether one is a key, and unlike those before it.
ghost use Rattle.std.specs.Prelude.{◌≡◌};
ghost use Rattle.table_check.specs.Records.{Sound, expr_of};
ghost use Rattle.bindings_literals.specs.Literals.{Entries, keys_from, literal_in};
ghost use Rattle.bindings_literals.specs.Judging.{repeated_in, key_fault};

use crate::literals::literal_at;
use rooms::memory::View;
use rooms::value::{Value, is_key};
use rooms_comparison::plain::key_equal;
use table_layout::outline::end_at;

// Whether a key is equal to one of the first so many in a Map whose first key stands at a place.
fn repeated(table: &[u8], literal: &[u8], first: usize, count: usize, key: Value) -> bool
    requires { Entries table.now literal.now count first }
    ensures { result ≡ repeated_in table.now literal.now key count first }
{
    let view = View {
        literal,
        binding_cells: &[],
        binding_text: b"",
        cells: &[],
        text: b"",
    };
    let mut at = first;
    for _ in 0..count {
        if key_equal(&view, key, literal_at(table, at)) {
            return true;
        }
        at = end_at(table, end_at(table, at));
    }
    false
}

// The place of a key at fault, behind so many others.
pub fn key_fault(
    table: &[u8],
    literal: &[u8],
    first: usize,
    count: usize,
    at: usize,
) -> Option<usize>
    requires { Entries table.now literal.now count first × Sound table.now literal.now at }
    ensures { result ≡ key_fault (keys_from table.now literal.now count first) (literal_in (expr_of table.now literal.now at)) }
{
    let key = literal_at(table, at);
    if !is_key(key) || repeated(table, literal, first, count, key) {
        return Some(at);
    }
    None
}
