// Runs a list of binding rooms from standard input, a room and what is done to it on each line, by `bindings_sound` and `bindings`.
// Of each call the answer is written, the used counts, and a digest each of the lent cells, the lent text and the slots.
#![tactic(auto)]

ghost use Rattle.std.specs.Prelude.{◌≡◌, length};

use crate::case::{Case, Rooms};
use crate::line::Words;
use program_input::read_full;
use std::io;

mod case;
mod digest;
mod lent;
mod line;
mod say;

// Bytes that are read: the longest list, and one byte more, by which a longer one is seen.
const ROOM: usize = 524288;

// The words and the bytes that a case can lend.
const WORDS: usize = 16384;

const BYTES: usize = 32768;

// The bytes that one word of the list can spell.
const SPELLED: usize = 131072;

// A function of its own, so that no proof writes the room out element by element.
fn room<T: Copy, const N: usize>(zero: T) -> [T; N]
    ensures { length result ≡ N }
{
    [zero; N]
}

// A line: deeds, with a space between two.
fn answer_line(rt: &impl Print, line: &[u8], rooms: &mut Rooms) -> io::Result<()> {
    let mut case = Case::fresh();
    let mut words = Words { left: line };
    // a deed takes at least one byte
    for _ in 0..line.len() {
        if words.left.is_empty() {
            return Ok(());
        }
        case.act(rt, &mut words, rooms)?;
    }
    Ok(())
}

// Answers every line, and says how many there were.
fn answer_all(rt: &impl Print, list: &[u8], rooms: &mut Rooms) -> io::Result<usize> {
    let mut cases = 0usize;
    for line in list.split_inclusive(|byte| *byte == b'\n') {
        cases = cases.saturating_add(1);
        print!(rt; "{cases}")?;
        answer_line(rt, line.strip_suffix(b"\n").unwrap_or(line), rooms)?;
        println!(rt; "")?;
    }
    Ok(cases)
}

fn main(rt: HostRuntime) -> io::Result<()> {
    let mut input = room::<u8, ROOM>(0);
    let count = read_full(&mut rt.stdin(), &mut input)?;
    if count == ROOM {
        return println!(rt; "The list is longer than 524287 bytes.");
    }
    let mut cells = room::<u64, WORDS>(0);
    let mut text = room::<u8, BYTES>(0);
    let mut left = room::<u8, SPELLED>(0);
    let mut right = room::<u8, SPELLED>(0);
    let mut rooms = Rooms {
        cells: &mut cells,
        text: &mut text,
        left: &mut left,
        right: &mut right,
    };
    let cases = answer_all(&rt, &input[..count], &mut rooms)?;
    println!(rt; "{cases} cases")
}
