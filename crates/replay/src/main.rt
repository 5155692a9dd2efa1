// Binds and evaluates by lines from standard input, and writes a line for each `bind` and each `eval`.
#![tactic(auto)]

ghost use Rattle.std.specs.Prelude.{◌≡◌, length};

use crate::commands::{answer_line, bad};
use line_answers::LONGEST_LINE;
use line_pieces::Writer;
use replay_lines::{Bench, Memory};
use std::io;
use std::io::Read;

mod commands;
mod said;

// Bytes that are read at once.
const CHUNK: usize = 65536;

// A line that fills it is a bad line.
const LINE: usize = 524288;

// The bytes that one word of a line can spell.
const SPELLED: usize = 262144;

// The words and the bytes that can be lent: more than any limit.
const WORDS: usize = 16384;

const BYTES: usize = 65536;

// The binding room before the first `room`.
const CELLS_AT_FIRST: usize = 4096;

const BYTES_AT_FIRST: usize = 16384;

// A function of its own, so that no proof writes the room out element by element.
fn room<T: Copy, const N: usize>(zero: T) -> [T; N]
    ensures { length result ≡ N }
{
    [zero; N]
}

// The line is there up to its end: it is answered, and the next one begins.
fn take_line(
    rt: &impl Print,
    line: &mut Writer,
    memory: &mut Memory,
    bench: &mut Bench,
) -> io::Result<()> {
    bench.lines = bench.lines.saturating_add(1);
    let length = line.at;
    line.at = 0;
    if line.out.len() <= length {
        return bad(rt, bench.lines);
    }
    answer_line(rt, &line.out[..length], memory, bench)
}

// A part of the input: every line that ends in it is answered. A line is kept as far as it fits.
fn take_chunk(
    rt: &impl Print,
    chunk: &[u8],
    line: &mut Writer,
    memory: &mut Memory,
    bench: &mut Bench,
) -> io::Result<()> {
    for part in chunk.split_inclusive(|byte| *byte == b'\n') {
        match part {
            [part @ .., b'\n'] => {
                line.put_word(part);
                take_line(rt, line, memory, bench)?;
            }
            _ => line.put_word(part),
        }
    }
    Ok(())
}

// The whole input. A proved loop has to end, but nothing says that the input ends, so the loop counts to a number that no run reaches.
fn take_all(
    input: &mut impl Read,
    rt: &impl Print,
    chunk: &mut [u8],
    line: &mut Writer,
    memory: &mut Memory,
    bench: &mut Bench,
) -> io::Result<()> {
    for _ in 0..usize::MAX {
        let count = input.read(chunk)?;
        if count == 0 {
            return Ok(());
        }
        take_chunk(rt, &chunk[..count], line, memory, bench)?;
    }
    Ok(())
}

fn main(rt: HostRuntime) -> io::Result<()> {
    let mut chunk = room::<u8, CHUNK>(0);
    let mut line = room::<u8, LINE>(0);
    let mut literal = room::<u8, SPELLED>(0);
    let mut table = room::<u8, SPELLED>(0);
    let mut binding_cells = room::<u64, WORDS>(0);
    let mut binding_text = room::<u8, BYTES>(0);
    let mut cells = room::<u64, WORDS>(0);
    let mut text = room::<u8, BYTES>(0);
    let mut out = room::<u8, LONGEST_LINE>(0);
    let mut line = Writer {
        out: &mut line,
        at: 0,
    };
    let mut memory = Memory {
        literal: &mut literal,
        table: &mut table,
        binding_cells: &mut binding_cells,
        binding_text: &mut binding_text,
        cells: &mut cells,
        text: &mut text,
        out: &mut out,
    };
    let mut bench = Bench {
        lines: 0,
        cells: CELLS_AT_FIRST,
        bytes: BYTES_AT_FIRST,
        bindings: bindings::empty(),
    };
    take_all(
        &mut rt.stdin(),
        &rt,
        &mut chunk,
        &mut line,
        &mut memory,
        &mut bench,
    )?;
    // a last line without an end
    if 0 < line.at {
        take_line(&rt, &mut line, &mut memory, &mut bench)?;
    }
    Ok(())
}
