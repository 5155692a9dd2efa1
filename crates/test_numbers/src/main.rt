// Answers a list of cases from standard input, a case to a line, by the public functions of `numbers` and `text`.
// Each line is written back with ` = ` and the answer; the last line says how many there were.
#![tactic(auto)]

ghost use Rattle.std.specs.Prelude.{◌≡◌, length};

use crate::answer::Answer;
use program_input::read_full;
use std::io;

mod answer;
mod arithmetic;
mod hex;
mod line;
mod order;
mod texts;

// Bytes that are read: the longest list, and one byte more, by which a longer one is seen.
const ROOM: usize = 524288;

// A function of its own, so that no proof writes the room out byte by byte.
fn room<const N: usize>() -> [u8; N]
    ensures { length result ≡ N }
{
    [0; N]
}

// `text NAME TEXT [TEXT]`, `order KIND KIND NUMBER NUMBER`, `equal` the same, `KIND NAME NUMBER [NUMBER]`. `None` where it cannot be read.
fn answer_to(line: &[u8]) -> Option<Answer> {
    let family = line::word(line, 0);
    let name = line::word(line, 1);
    let first = line::word(line, 2);
    let second = line::word(line, 3);
    match family {
        b"text" => texts::answer(name, first, second),
        b"order" | b"equal" => order::answer(family, name, first, second, line::word(line, 4)),
        _ => arithmetic::answer(family, name, first, second),
    }
}

fn answer_line(rt: &impl Print, line: &[u8]) -> io::Result<()> {
    rt.write_all(line)?;
    match answer_to(line) {
        Some(answer) => println!(rt; " = {answer}"),
        None => println!(rt; " = unreadable"),
    }
}

// Answers every line, and says how many there were.
fn answer_all(rt: &impl Print, list: &[u8]) -> io::Result<u64> {
    let mut cases = 0u64;
    for line in list.split_inclusive(|byte| *byte == b'\n') {
        answer_line(rt, line.strip_suffix(b"\n").unwrap_or(line))?;
        cases = cases.saturating_add(1);
    }
    Ok(cases)
}

fn main(rt: HostRuntime) -> io::Result<()> {
    let mut input = room::<ROOM>();
    let count = read_full(&mut rt.stdin(), &mut input)?;
    if count == ROOM {
        return println!(rt; "The list is longer than 524287 bytes.");
    }
    let cases = answer_all(&rt, &input[..count])?;
    println!(rt; "{cases} cases")
}
