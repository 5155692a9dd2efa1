// Evaluates one rule from standard input, with no bindings and the largest limits, and writes the answer as one line.
// The input: the length of the literal text (two bytes, the lower first), the text, and the table to the end.
#![tactic(auto)]

ghost use Rattle.std.specs.Prelude.{◌≡◌, length};

use line_answers::{LONGEST_LINE, put_answer};
use program_input::read_full;
use program_memory::before_run::bytes_of;
use std::io;

// The length, the longest text, and one byte more than the longest table, by which a longer one is seen.
const INPUT: usize = 2 + 65535 + 16385;

const WORDS: usize = 8192;

const BYTES: usize = 16384;

const MOST_STEPS: usize = 1000000;

// A function of its own, so that no proof writes the room out element by element.
fn room<T: Copy, const N: usize>(zero: T) -> [T; N]
    ensures { length result ≡ N }
{
    [zero; N]
}

fn answer(rt: &impl Print, literal: &[u8], table: &[u8]) -> io::Result<()> {
    let mut cells = room::<u64, WORDS>(0);
    let mut text = room::<u8, BYTES>(0);
    let mut line = room::<u8, LONGEST_LINE>(0);
    let bindings = bindings::empty();
    let answer = evaluator::evaluate(
        table,
        literal,
        bindings,
        &[],
        &[],
        &mut cells,
        &mut text,
        MOST_STEPS,
    );
    let length = put_answer(literal, &[], &[], &cells, &text, answer, &mut line);
    let end = bytes_of(&line, length);
    rt.write_all(&line[..end])?;
    println!(rt; "")
}

fn answer_input(rt: &impl Print, input: &[u8]) -> io::Result<()> {
    let [low, high, rest @ ..] = input else {
        return println!(rt; "The input ends before the length of its text.");
    };
    let length = usize::from(u16::from_le_bytes([*low, *high]));
    let Some((literal, table)) = rest.split_at_checked(length) else {
        return println!(rt; "The input ends before its text does.");
    };
    answer(rt, literal, table)
}

fn main(rt: HostRuntime) -> io::Result<()> {
    let mut input = room::<u8, INPUT>(0);
    let count = read_full(&mut rt.stdin(), &mut input)?;
    answer_input(&rt, &input[..count])
}
