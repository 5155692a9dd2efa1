// A value without parts, and what stands between parts, put into lent memory.
ghost use Rattle.rooms.specs.Memory.{rooms_seen};
ghost use Rattle.rooms_comparison.specs.Seen.{seen_plain};
ghost use Rattle.line_pieces.specs.Page.{puts};
ghost use Rattle.line_pieces.specs.Writes.{Writes};
ghost use Rattle.line_values.specs.Written.{separator};
ghost use Rattle.line_values.specs.Shown.{shown_seen};

use crate::scalars::{put_bool, put_numeral};
use line_pieces::Writer;
use rooms::memory::View;
use rooms::value::Plain;
use rooms_text::part_in;

// A value without parts.
#[tactic(auto, using(line_pieces::proofs::Putting::puts_none, crate::proofs::Steps::string_put, crate::proofs::Steps::bytes_put), unfolding(crate::specs::Written::written_scalar))]
pub fn put_plain(view: &View, page: &mut Writer, plain: Plain)
    ensures { Writes page.old page.new (λ p. puts (shown_seen (seen_plain (rooms_seen view.now) plain)) p) }
{
    match plain {
        Plain::Null => page.put_word(b"Null"),
        Plain::Bool(truth) => put_bool(page, truth),
        Plain::Number(number) => put_numeral(page, number),
        Plain::String(span) => {
            page.put_word(b"String ");
            page.put_quoted(part_in(view, span));
        }
        Plain::Bytes(span) => {
            page.put_word(b"Bytes ");
            page.put_quoted(part_in(view, span));
        }
        Plain::OptionalNone => page.put_word(b"Optional none"),
        Plain::Other => {}
    }
}

// Between two parts: where there are more to come.
#[tactic(auto, using(crate::proofs::Steps::separator_none, crate::proofs::Steps::separator_some))]
pub fn put_separator(page: &mut Writer, left: usize)
    ensures { Writes page.old page.new (λ p. puts (separator left) p) }
{
    if left != 0 {
        page.put_word(b", ");
    }
}
