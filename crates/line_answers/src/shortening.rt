// A value as text, cut where it is too long.
ghost use Rattle.std.specs.Prelude.{◌≡◌};
ghost use Rattle.rooms.specs.Memory.{rooms_seen};
ghost use Rattle.line_pieces.specs.Page.{Page, puts};
ghost use Rattle.line_values.specs.Shown.{shown_in};
ghost use Rattle.line_answers.specs.Written.{shortened};

use line_pieces::Writer;
use line_values::put_value;
use rooms::memory::View;
use rooms::value::Value;

// The value at the start of `out`, as far as it fits; says where it ends.
fn put_start(view: &View, value: Value, out: &mut [u8]) -> usize
    ensures { ◌≡◌ {A = Page} (result, out.new) (puts (shown_in (rooms_seen view.now) value) (0, out.old)) }
{
    let mut page = Writer { out, at: 0 };
    put_value(view, &mut page, value);
    page.at
}

// The value at the start of `out`, or its first `most` bytes and that it goes on. It is put one byte further, by which a longer one is seen.
#[tactic(auto, using(crate::proofs::Cut::cut_full))]
pub fn put_cut(view: &View, value: Value, most: usize, out: &mut [u8]) -> usize
    ensures { ◌≡◌ {A = Page} (result, out.new) (puts (shortened most (shown_in (rooms_seen view.now) value)) (0, out.old)) }
{
    if out.len() <= most {
        return put_start(view, value, out);
    }
    let next = put_start(view, value, &mut out[..=most]);
    if next <= most {
        return next;
    }
    let mut page = Writer { out, at: most };
    page.put_word(b" ...");
    page.at
}
