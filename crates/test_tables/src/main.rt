// Checks a list of node tables from standard input, a table with its literal text to a line, by `table_check::check`.
// Of each line its number, the two lengths and the answer are written; the last line says how many there were.
#![tactic(auto)]

ghost use Rattle.std.specs.Prelude.{◌≡◌, length};

use program_input::read_full;
use program_words::find;
use program_words::hexadecimal::put_pieces;
use std::io;

// Bytes that are read: the longest list, and one byte more, by which a longer one is seen. A table and a text have as much room.
const ROOM: usize = 524288;

// A function of its own, so that no proof writes the room out byte by byte.
fn room<const N: usize>() -> [u8; N]
    ensures { length result ≡ N }
{
    [0; N]
}

fn answer(rt: &impl Print, records: &[u8], literals: &[u8]) -> io::Result<()> {
    match table_check::check(records, literals) {
        Ok(()) => println!(rt; " = accepted"),
        Err(refusal) => {
            let number = refusal.reason.number();
            println!(rt; " = refused {number} at {}", refusal.place)
        }
    }
}

// The table and the text are put into the two rooms, which are apart: slices of two fields of one struct cannot be lent at once.
fn answer_line(
    rt: &impl Print,
    line: &[u8],
    number: usize,
    records: &mut [u8],
    literals: &mut [u8],
) -> io::Result<()> {
    print!(rt; "{number}")?;
    let middle = find(line, 0, b' ');
    if middle == line.len() {
        return println!(rt; " unreadable");
    }
    let size = put_pieces(&line[..middle], records);
    let length = put_pieces(&line[middle + 1..], literals);
    print!(rt; " {size} {length}")?;
    answer(rt, &records[..size], &literals[..length])
}

// Answers every line, and says how many there were.
fn answer_all(
    rt: &impl Print,
    list: &[u8],
    records: &mut [u8],
    literals: &mut [u8],
) -> io::Result<usize> {
    let mut cases = 0usize;
    for line in list.split_inclusive(|byte| *byte == b'\n') {
        cases = cases.saturating_add(1);
        answer_line(
            rt,
            line.strip_suffix(b"\n").unwrap_or(line),
            cases,
            records,
            literals,
        )?;
    }
    Ok(cases)
}

fn main(rt: HostRuntime) -> io::Result<()> {
    let mut input = room::<ROOM>();
    let count = read_full(&mut rt.stdin(), &mut input)?;
    if count == ROOM {
        return println!(rt; "The list is longer than 524287 bytes.");
    }
    let mut records = room::<ROOM>();
    let mut literals = room::<ROOM>();
    let cases = answer_all(&rt, &input[..count], &mut records, &mut literals)?;
    println!(rt; "{cases} cases")
}
