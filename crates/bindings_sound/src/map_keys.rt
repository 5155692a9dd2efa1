// The keys of a Map where they lie: their kinds, and that no two of them match.
#![tactic(auto, using(crate::proofs::KeySteps::repeated_turn, crate::proofs::KeySteps::repeated_none, crate::proofs::KeySteps::keys_turn, crate::proofs::KeySteps::keys_none))]

ghost use Rattle.std.specs.Prelude.{◌≡◌, ◌+◌, ◌*◌, ◌<◌};
ghost use Rattle.bindings_sound.specs.Keys.{repeated_in, keys_fit};

use rooms::memory::View;
use rooms::value::{Value, is_key};
use rooms_cells::read_cell;
use rooms_comparison::plain::key_equal;

// Whether one of `count` keys, the first in cell `first`, is equal to `key`. An Int and a Uint of one number are equal.
fn repeated(cells: &[u64], text: &[u8], key: Value, first: usize, count: usize) -> bool
    requires { first + 2 * count < 262144 }
    ensures { result ≡ repeated_in cells.now text.now key first count }
{
    let view = View {
        literal: b"",
        binding_cells: cells,
        binding_text: text,
        cells: &[],
        text: b"",
    };
    for entry in 0..count {
        let other = read_cell(cells, first + 2 * entry);
        if key_equal(&view, key, other) {
            return true;
        }
    }
    false
}

// Whether each of `length` entries, the first at cell `first`, has a key that is unlike the keys behind it. (Not inlined, so that
// `value_fits`, which is, stays small.)
#[inline(never)]
pub fn keys_fit(cells: &[u64], text: &[u8], first: u16, length: u16) -> bool
    ensures { result ≡ keys_fit cells.now text.now first length }
{
    let count = length as usize;
    for entry in 0..count {
        let at = first as usize + 2 * entry;
        let key = read_cell(cells, at);
        if !is_key(key) {
            return false;
        }
        if repeated(cells, text, key, at + 2, count - entry - 1) {
            return false;
        }
    }
    true
}
