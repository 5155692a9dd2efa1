// A value and its parts, put into lent memory. Parts that stand in it many times are put each time, up to where the memory ends.
ghost use Rattle.rooms.specs.Memory.{rooms_seen};
ghost use Rattle.line_pieces.specs.Page.{puts};
ghost use Rattle.line_pieces.specs.Writes.{Writes};
ghost use Rattle.line_values.specs.Shown.{elements_shown, entries_shown, shown_to};

use crate::plain::{put_plain, put_separator};
use line_pieces::Writer;
use rooms::memory::View;
use rooms::value::{Parts, Row, Value, parts_of, plain_of};
use rooms_cells::cell_at;

// So many elements, a cell each, with so many levels left.
#[cycle(put_elements_put_entries_put_nested)]
#[tactic(auto, using(crate::proofs::Steps::elements_over, crate::proofs::Steps::elements_on))]
fn put_elements(view: &View, page: &mut Writer, levels: usize, row: Row)
    ensures { Writes page.old page.new (λ p. puts (elements_shown (λ v. shown_to levels (rooms_seen view.now) v) (rooms_seen view.now) row.space row.first row.length) p) }
{
    let first = row.first as usize;
    let length = row.length as usize;
    for index in 0..length {
        let element = cell_at(view, row.space, first + index);
        put_nested(view, page, levels, element);
        put_separator(page, length - index - 1);
    }
}

// So many entries, two cells each.
#[cycle(put_elements_put_entries_put_nested)]
#[tactic(auto, using(crate::proofs::Steps::entries_over, crate::proofs::Steps::entries_on))]
fn put_entries(view: &View, page: &mut Writer, levels: usize, row: Row)
    ensures { Writes page.old page.new (λ p. puts (entries_shown (λ v. shown_to levels (rooms_seen view.now) v) (rooms_seen view.now) row.space row.first row.length) p) }
{
    let first = row.first as usize;
    let length = row.length as usize;
    for index in 0..length {
        let key = cell_at(view, row.space, first + 2 * index);
        put_nested(view, page, levels, key);
        page.put_word(b": ");
        let value = cell_at(view, row.space, first + 2 * index + 1);
        put_nested(view, page, levels, value);
        put_separator(page, length - index - 1);
    }
}

// A value and its parts, with so many levels left. Where the memory is full nothing more is looked at.
#[cycle(put_elements_put_entries_put_nested)]
#[tactic(auto, using(line_pieces::proofs::Putting::puts_full, crate::proofs::Steps::nested_none, crate::proofs::Steps::nested_list, crate::proofs::Steps::nested_map, crate::proofs::Steps::nested_plain))]
pub fn put_nested(view: &View, page: &mut Writer, levels: usize, value: Value)
    ensures { Writes page.old page.new (λ p. puts (shown_to levels (rooms_seen view.now) value) p) }
{
    if levels == 0 {
        return;
    }
    if page.out.len() <= page.at {
        return;
    }
    let within = levels - 1;
    match parts_of(value) {
        Parts::Elements(row) => {
            page.put_word(b"List [");
            put_elements(view, page, within, row);
            page.put(b']');
        }
        Parts::Entries(row) => {
            page.put_word(b"Map {");
            put_entries(view, page, within, row);
            page.put(b'}');
        }
        Parts::Present(space, cell) => {
            page.put_word(b"Optional of ");
            let inner = cell_at(view, space, cell as usize);
            put_nested(view, page, within, inner);
        }
        Parts::Nothing => put_plain(view, page, plain_of(value)),
    }
}
