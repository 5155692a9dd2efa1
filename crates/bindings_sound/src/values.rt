// What a cell or a slot holds, judged by what it refers to.
#![tactic(auto, unfolding(crate::specs::Fits::map_fits, crate::specs::Fits::slot_fits))]

ghost use Rattle.std.specs.Prelude.{◌≡◌};
ghost use Rattle.bindings_sound.specs.Fits.{map_fits, value_fits, is_absent, slot_fits};

use crate::map_keys::keys_fit;
use crate::room::Room;
use rooms::value::{CellSpace, Value};

// Whether a name has no value.
pub fn is_absent(v: Value) -> bool
    ensures { result ≡ is_absent v }
{
    matches!(v, Value::Absent)
}

impl Room<'_> {
    fn map_fits(&self, least: usize, nesting: u8, space: CellSpace, first: u16, length: u16) -> bool
        ensures { result ≡ map_fits self.now.cells.now self.now.text.now self.now.used least nesting space first length }
    {
        self.row_fits(least, nesting, space, first, 2 * (length as usize))
            && keys_fit(self.cells, self.text, first, length)
    }

    // Whether a binding can have written this. (Inlined into the loops over cells and slots: there a call of its own can be seen in the time.)
    #[inline(always)]
    pub fn value_fits(&self, least: usize, v: Value) -> bool
        ensures { result ≡ value_fits self.now.cells.now self.now.text.now self.now.used self.now.bytes least v }
    {
        match v {
            Value::String(span) => self.string_fits(span.space, span.first, span.length),
            Value::Bytes(span) => self.span_fits(span.space, span.first, span.length),
            Value::List(nesting, row) => {
                self.row_fits(least, nesting, row.space, row.first, row.length as usize)
            }
            Value::Map(nesting, row) => {
                self.map_fits(least, nesting, row.space, row.first, row.length)
            }
            Value::OptionalNone | Value::OptionalOf(_, _, _) | Value::Absent => false,
            _ => true,
        }
    }

    // A slot may be absent, and may refer to any cell.
    pub fn slot_fits(&self, v: Value) -> bool
        ensures { result ≡ slot_fits self.now.cells.now self.now.text.now self.now.used self.now.bytes v }
    {
        is_absent(v) || self.value_fits(0, v)
    }
}
