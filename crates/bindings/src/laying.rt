// The value of a table is laid down in a binding room: a container's cells first, then those of its parts, in the order of the table, and
// their text one after the other.
ghost use Rattle.std.specs.Prelude.{◌≡◌, ◌+◌, ◌<◌, ◌≤◌, [], length};
ghost use Rattle.rooms.specs.declared.value.TextSpace.TheVariants as Text;
ghost use Rattle.rooms_taking.specs.Taking.{pasted};
ghost use Rattle.meaning.specs.Spelling.{literal_nesting, literals_nesting};
ghost use Rattle.table_check.specs.Records.{SoundPart, part_of};
ghost use Rattle.bindings_literals.specs.Literals.{part_literal, Operands, row_bytes, row_literals, text_length, text_first, moved_to};
ghost use Rattle.bindings_literals.specs.Judging.{cells_for, cells_among, bytes_for, bytes_among};
ghost use Rattle.bindings_literals.specs.Laying.{room, taking, laid, laid_row};
ghost use Rattle.bindings.specs.Lays.{Lays};

use bindings_literals::literals::{literal_at, moved_to, text_first, text_length};
use rooms::value::{CellSpace, Row, TextSpace, Value, nesting_of};
use rooms_cells::write_cell;
use rooms_taking::copying::paste;
use table_layout::fields::count_at;
use table_layout::kinds::{LIST, MAP};
use table_layout::outline::{end_at, first_operand, kind_at};

// A binding room in which values are laid down, and how much of it is used.
#[derive(Drop)]
pub struct Laying<'a> {
    pub cells: &'a mut [u64],
    pub text: &'a mut [u8],
    pub used: usize,
    pub bytes: usize,
}

impl Laying<'_> {
    // A literal's text goes behind the text that is used.
    fn lay_literal(&mut self, literal: &[u8], v: Value) -> Value
        requires { self.old.bytes + text_length v ≤ 16384 }
        ensures { Lays self.old self.new result (λ r. (moved_to r.bytes v, room r.words (pasted literal.now [] Text.Literal r.text (text_first v) r.bytes (text_length v)) r.cells (r.bytes + text_length v))) }
    {
        let length = text_length(v);
        let to = self.bytes as u16;
        paste(
            literal,
            b"",
            self.text,
            TextSpace::Literal,
            text_first(v),
            length as u16,
            to,
        );
        self.bytes += length;
        moved_to(to, v)
    }

    // The record at a place, with all in it.
    #[cycle(lay_lay_row)]
    pub fn lay(&mut self, table: &[u8], literal: &[u8], at: usize) -> Value
        requires { SoundPart table.now literal.now at × (length table.now ≤ 16384) × (literal_nesting (part_literal (part_of table.now literal.now at)) ≤ 32) × (self.old.used + cells_for (part_literal (part_of table.now literal.now at)) ≤ 4096) × (self.old.bytes + bytes_for (part_literal (part_of table.now literal.now at)) ≤ 16384) }
        ensures { Lays self.old self.new result (λ r. laid (part_literal (part_of table.now literal.now at)) r) }
    {
        let kind = kind_at(table, at);
        if kind == LIST {
            let first = first_operand(table, at);
            let count = count_at(table, at);
            let to = self.used;
            let nesting = self.lay_row(table, literal, first, count);
            return Value::List(
                nesting + 1,
                Row {
                    space: CellSpace::Binding,
                    first: to as u16,
                    length: count as u16,
                },
            );
        }
        if kind == MAP {
            let first = first_operand(table, at);
            let count = count_at(table, at);
            let to = self.used;
            let nesting = self.lay_row(table, literal, first, 2 * count);
            return Value::Map(
                nesting + 1,
                Row {
                    space: CellSpace::Binding,
                    first: to as u16,
                    length: count as u16,
                },
            );
        }
        self.lay_literal(literal, literal_at(table, at))
    }

    // So many parts from a place on: their cells are the next ones, and what is in them lies behind. The deepest nesting among them is returned.
    #[cycle(lay_lay_row)]
    fn lay_row(&mut self, table: &[u8], literal: &[u8], first: usize, count: usize) -> u8
        requires { Operands table.now literal.now count first × (first + row_bytes table.now count first ≤ length table.now) × (length table.now ≤ 16384) × (literals_nesting (row_literals table.now literal.now count first) < 32) × (self.old.used + cells_among (row_literals table.now literal.now count first) ≤ 4096) × (self.old.bytes + bytes_among (row_literals table.now literal.now count first) ≤ 16384) }
        ensures { Lays self.old self.new result (λ r. (literals_nesting (row_literals table.now literal.now count first), laid_row (row_literals table.now literal.now count first) r.cells (taking r count))) }
    {
        let from = self.used;
        self.used += count;
        let mut nesting = 0;
        let mut at = first;
        for to in from..from + count {
            let value = self.lay(table, literal, at);
            write_cell(self.cells, to, value);
            nesting = nesting.max(nesting_of(value));
            at = end_at(table, at);
        }
        nesting
    }
}
