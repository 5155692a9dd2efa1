// A room and what is done to it, deed by deed.
use crate::lent::put_words;
use crate::line::{Words, number};
use crate::say;
use bindings_sound::Bindings;
use line_pieces::Writer;
use program_memory::before_run::fill;
use program_words::hexadecimal::{put_bytes, put_pieces, word_at};
use rooms::scope::Scope;
use rooms_cells::read_cell;
use std::io;

// The words and the bytes that a case can lend, and where two words of a line are spelled out.
#[derive(Drop)]
pub struct Rooms<'a> {
    pub cells: &'a mut [u64],
    pub text: &'a mut [u8],
    pub left: &'a mut [u8],
    pub right: &'a mut [u8],
}

// How much is lent, and the bindings in it.
#[derive(Clone, Copy)]
pub struct Case {
    words: usize,
    bytes: usize,
    bindings: Bindings,
}

fn put(cells: &mut [u64], from: usize, digits: &[u8], room: &mut [u8]) {
    let size = put_pieces(digits, room);
    put_words(cells, from, &room[..size]);
}

fn put_text(text: &mut [u8], from: usize, digits: &[u8], room: &mut [u8]) {
    let size = put_pieces(digits, room);
    let mut page = Writer {
        out: text,
        at: from,
    };
    page.put_word(&room[..size]);
}

// The word of sixteen digits.
fn word(digits: &[u8]) -> u64 {
    let mut bytes = [0; 8];
    put_bytes(digits, &mut bytes);
    word_at(&bytes, 0)
}

// The slot that a cell with these words makes.
fn with_slot(bindings: Bindings, name: usize, head: &[u8], payload: &[u8]) -> Bindings {
    let cell = [word(head), word(payload)];
    let value = read_cell(&cell, 0);
    Bindings {
        scope: Scope::with(bindings.scope, name, value),
        ..bindings
    }
}

impl Case {
    pub fn fresh() -> Case {
        Case {
            words: 0,
            bytes: 0,
            bindings: bindings::empty(),
        }
    }

    // `words` words and `bytes` bytes are lent, or all if there are fewer.
    fn lend(&mut self, cells: &mut [u64], text: &mut [u8], words: usize, bytes: usize) {
        self.words = words.min(cells.len());
        self.bytes = bytes.min(text.len());
        fill(&mut cells[..self.words], &mut text[..self.bytes]);
    }

    // One of the three calls, on what is lent, with the table and the text that the words spell.
    fn call(
        &mut self,
        rt: &impl Print,
        deed: &[u8],
        name: usize,
        cells: &mut [u64],
        text: &mut [u8],
        table: &[u8],
        literal: &[u8],
    ) -> io::Result<()> {
        match deed {
            [b'b', ..] => {
                let bindings = &mut self.bindings;
                let answer = bindings::bring_in(cells, text, bindings, name, table, literal);
                say::answer(rt, answer)?;
            }
            [b'e', ..] => {
                self.bindings = bindings::empty();
                print!(rt; " emptied")?;
            }
            _ => say::soundness(rt, bindings_sound::sound(cells, text, self.bindings))?,
        }
        say::state(rt, cells, text, self.bindings)
    }

    // The slices stand apart: where slices of several fields of one struct are lent at once, the borrow checker writes no proof.
    fn act_on(
        &mut self,
        rt: &impl Print,
        words: &mut Words,
        cells: &mut [u64],
        text: &mut [u8],
        left: &mut [u8],
        right: &mut [u8],
    ) -> io::Result<()> {
        let deed = words.next_word();
        let first = words.next_word();
        let second = words.next_word();
        let third = words.next_word();
        let count = number(first);
        match deed {
            [b'l', ..] => self.lend(cells, text, count, number(second)),
            [b'w', ..] => put(cells, count, second, left),
            [b't', ..] => put_text(text, count, second, left),
            [b's', ..] => self.bindings = with_slot(self.bindings, count, second, third),
            [b'u', ..] => {
                self.bindings = Bindings {
                    cells: count,
                    bytes: number(second),
                    ..self.bindings
                };
            }
            _ => {
                let words = self.words.min(cells.len());
                let bytes = self.bytes.min(text.len());
                let size = put_pieces(second, left);
                let length = put_pieces(third, right);
                self.call(
                    rt,
                    deed,
                    count,
                    &mut cells[..words],
                    &mut text[..bytes],
                    &left[..size],
                    &right[..length],
                )?;
            }
        }
        Ok(())
    }

    // One deed, with up to three words behind it.
    pub fn act(&mut self, rt: &impl Print, words: &mut Words, rooms: &mut Rooms) -> io::Result<()> {
        self.act_on(rt, words, rooms.cells, rooms.text, rooms.left, rooms.right)
    }
}
