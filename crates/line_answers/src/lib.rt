// The line of an answer, put into lent memory.
// Here: the whole line. `phrases` puts its counts, places and limits, and `shortening` cuts a value that is too long.
#![tactic(auto)]

pub mod phrases;
pub mod shortening;

ghost use Rattle.std.specs.Prelude.{◌≡◌};
ghost use Rattle.rooms.specs.Rooms.{rooms};
ghost use Rattle.line_pieces.specs.Page.{Page, puts};
ghost use Rattle.line_answers.specs.Shown.{shown_answer};

use crate::phrases::{put_counts, put_limit, put_placed};
use crate::shortening::put_cut;
use answer::Answer;
use answer::reasons::error_number;
use line_pieces::Writer;
use rooms::memory::View;

// So much of a value is shown.
pub const LONGEST_VALUE: usize = 1000000;

// A value that is cut, that it goes on, and the counts.
pub const LONGEST_LINE: usize = 1000128;

// The answer at the start of `out`, without the end of the line; says how long it is.
#[tactic(auto, using(crate::proofs::Steps::refused_put, crate::proofs::Steps::value_put, crate::proofs::Steps::error_put, crate::proofs::Steps::exhausted_put))]
pub fn put_answer(
    literal: &[u8],
    binding_cells: &[u64],
    binding_text: &[u8],
    cells: &[u64],
    text: &[u8],
    answer: Answer,
    out: &mut [u8],
) -> usize
    ensures { ◌≡◌ {A = Page} (result, out.new) (puts (shown_answer (rooms literal.now binding_cells.now binding_text.now cells.now text.now) answer) (0, out.old)) }
{
    // Both programs hold the five rooms as slices of their own, so the view is made once, here.
    let view = View {
        literal,
        binding_cells,
        binding_text,
        cells,
        text,
    };
    let mut page = Writer { out, at: 0 };
    match answer {
        Answer::Refused(refusal) => {
            page.put_word(b"Refused ");
            put_placed(&mut page, refusal.reason.number(), refusal.place);
        }
        Answer::Value(value, used) => {
            page.at = put_cut(&view, value, LONGEST_VALUE, page.out);
            put_counts(&mut page, used);
        }
        Answer::Error(error, place, used) => {
            page.put_word(b"Error ");
            put_placed(&mut page, error_number(error), place);
            put_counts(&mut page, used);
        }
        Answer::Exhausted(limit, used) => {
            put_limit(&mut page, limit);
            put_counts(&mut page, used);
        }
    }
    page.at
}
