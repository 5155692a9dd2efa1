// Values as text, put into lent memory. Parts that stand in a value many times are put each time, up to where the memory ends.
// Here: any value. `nested` puts a value with its parts, `plain` one without parts, and `scalars` a Bool or a number.
#![tactic(auto)]

pub mod nested;
pub mod plain;
pub mod scalars;

ghost use Rattle.rooms.specs.Memory.{rooms_seen};
ghost use Rattle.line_pieces.specs.Page.{puts};
ghost use Rattle.line_pieces.specs.Writes.{Writes};
ghost use Rattle.line_values.specs.Shown.{shown_in};

use crate::nested::put_nested;
use line_pieces::Writer;
use rooms::memory::View;
use rooms::value::{Value, nesting_of};

#[tactic(auto, unfolding(crate::specs::Shown::shown_in))]
pub fn put_value(view: &View, page: &mut Writer, value: Value)
    ensures { Writes page.old page.new (λ p. puts (shown_in (rooms_seen view.now) value) p) }
{
    put_nested(view, page, nesting_of(value) as usize + 1, value);
}
