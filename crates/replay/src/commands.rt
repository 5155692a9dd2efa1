// What a line does: `eval` here, the other commands as `replay_lines` has them.
use crate::said::{Fault, say_brought};
use line_answers::put_answer;
use program_memory::after_run::is_kept;
use program_memory::before_run::{bytes_of, fill, words_of};
use replay_lines::asked::{Lent, asked_from};
use replay_lines::command::{Command, command_of};
use replay_lines::line::Words;
use replay_lines::{Bench, Memory};
use std::io;

// The answer's line, with a remark if lent memory does not hold what it must. What is spelled and lent is cut to what there is.
// The slices stand apart: where slices of several fields of one struct are lent at once, the borrow checker writes no proof.
fn evaluate(
    rt: &impl Print,
    lent: Lent,
    bench: Bench,
    literal: &mut [u8],
    table: &mut [u8],
    binding_cells: &mut [u64],
    binding_text: &mut [u8],
    cells: &mut [u64],
    text: &mut [u8],
    out: &mut [u8],
) -> io::Result<()> {
    let literal = &literal[..bytes_of(literal, lent.literal)];
    let table = &table[..bytes_of(table, lent.table)];
    let binding_cells = &binding_cells[..words_of(binding_cells, bench.cells)];
    let binding_text = &binding_text[..bytes_of(binding_text, bench.bytes)];
    let words = words_of(cells, lent.cells);
    let cells = &mut cells[..words];
    let bytes = bytes_of(text, lent.bytes);
    let text = &mut text[..bytes];
    fill(cells, text);
    let answer = evaluator::evaluate(
        table,
        literal,
        bench.bindings,
        binding_cells,
        binding_text,
        cells,
        text,
        lent.steps,
    );
    let length = put_answer(
        literal,
        binding_cells,
        binding_text,
        cells,
        text,
        answer,
        out,
    );
    rt.write_all(&out[..bytes_of(out, length)])?;
    if !is_kept(cells, text, answer) {
        print!(rt; " memory changed")?;
    }
    println!(rt; "")
}

fn eval(
    rt: &impl Print,
    words: &mut Words,
    memory: &mut Memory,
    bench: Bench,
) -> Result<(), Fault> {
    let lent = asked_from(words, memory.literal, memory.table).ok_or(Fault::Bad)?;
    evaluate(
        rt,
        lent,
        bench,
        memory.literal,
        memory.table,
        memory.binding_cells,
        memory.binding_text,
        memory.cells,
        memory.text,
        memory.out,
    )?;
    Ok(())
}

fn obey(rt: &impl Print, line: &[u8], memory: &mut Memory, bench: &mut Bench) -> Result<(), Fault> {
    let mut words = Words { left: line };
    match command_of(words.next_word()).ok_or(Fault::Bad)? {
        Command::Room => bench.room(&mut words).ok_or(Fault::Bad),
        Command::Empty => bench.empty(&mut words).ok_or(Fault::Bad),
        Command::Bind => {
            let answer = bench.bind(&mut words, memory).ok_or(Fault::Bad)?;
            Ok(say_brought(rt, answer)?)
        }
        Command::Eval => eval(rt, &mut words, memory, *bench),
    }
}

// Does what the line says. Its number is the count of lines so far.
pub fn answer_line(
    rt: &impl Print,
    line: &[u8],
    memory: &mut Memory,
    bench: &mut Bench,
) -> io::Result<()> {
    match obey(rt, line, memory, bench) {
        Ok(()) => Ok(()),
        Err(Fault::Bad) => bad(rt, bench.lines),
        Err(Fault::Io(error)) => Err(error),
    }
}

// The line at hand is none that the program knows.
pub fn bad(rt: &impl Print, number: usize) -> io::Result<()> {
    println!(rt; "bad line {number}")
}
