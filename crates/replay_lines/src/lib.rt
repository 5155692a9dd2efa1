// What a line of `replay` spells and binds: here the binding room that stands between two lines, taken anew, bound in and emptied.
#![tactic(auto)]

ghost use Rattle.replay_lines.specs.Leaves.{Leaves};

use crate::line::Words;
use bindings_sound::Bindings;
use meaning::refusal::Refusal;
use program_memory::before_run::{bytes_of, words_of};

pub mod asked;
pub mod command;
pub mod line;

// The memory that the program holds: what a line spells is read into `literal` and `table`, `binding_cells` and `binding_text` hold the bindings,
// `cells` and `text` are lent to an evaluation, and the answer's line is put into `out`.
#[derive(Drop)]
pub struct Memory<'a> {
    pub literal: &'a mut [u8],
    pub table: &'a mut [u8],
    pub binding_cells: &'a mut [u64],
    pub binding_text: &'a mut [u8],
    pub cells: &'a mut [u64],
    pub text: &'a mut [u8],
    pub out: &'a mut [u8],
}

// What stands between two lines: how many there were, and the binding room, its lengths and what is bound in it.
#[derive(Clone, Copy)]
pub struct Bench {
    pub lines: usize,
    pub cells: usize,
    pub bytes: usize,
    pub bindings: Bindings,
}

// Each answers `None` where the line is none that the program knows, and then leaves the binding room as it was.
impl Bench {
    // `room CELLS TEXT`.
    pub fn room(&mut self, words: &mut Words) -> Option<()> {
        let cells = words.number()?;
        let bytes = words.number()?;
        words.end()?;
        *self = Bench {
            cells,
            bytes,
            bindings: bindings::empty(),
            ..*self
        };
        Some(())
    }

    // `empty`.
    pub fn empty(&mut self, words: &mut Words) -> Option<()> {
        words.end()?;
        self.bindings = bindings::empty();
        Some(())
    }

    // What the line spells, read into `literal` and `table` and brought in.
    // The slices stand apart: where slices of several fields of one struct are lent at once, the borrow checker writes no proof.
    fn bring(
        &mut self,
        words: &mut Words,
        literal: &mut [u8],
        table: &mut [u8],
        cells: &mut [u64],
        text: &mut [u8],
    ) -> Option<Result<(), Refusal>> {
        let name = words.number()?;
        let literal_end = words.bytes(literal)?;
        let table_end = words.bytes(table)?;
        words.end()?;
        let words = words_of(cells, self.cells);
        let bytes = bytes_of(text, self.bytes);
        Some(bindings::bring_in(
            &mut cells[..words],
            &mut text[..bytes],
            &mut self.bindings,
            name,
            &table[..table_end],
            &literal[..literal_end],
        ))
    }

    // `bind NAME TEXTHEX TABLEHEX`. What an evaluation writes stays as it is.
    pub fn bind(&mut self, words: &mut Words, memory: &mut Memory) -> Option<Result<(), Refusal>>
        ensures { Leaves memory.old memory.new }
    {
        self.bring(
            words,
            memory.literal,
            memory.table,
            memory.binding_cells,
            memory.binding_text,
        )
    }
}
