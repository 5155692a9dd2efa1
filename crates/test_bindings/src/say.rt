// What is written of a call: the answer, the used counts, and a digest each of the lent cells, the lent text and the slots.
use crate::digest;
use bindings_sound::Bindings;
use meaning::refusal::Refusal;
use rooms::scope::{NAMES, Scope};
use rooms::value::Value;
use rooms_cells::write_cell;
use std::io;

pub fn soundness(rt: &impl Print, sound: Result<(), usize>) -> io::Result<()> {
    match sound {
        Ok(()) => print!(rt; " sound"),
        Err(place) => print!(rt; " unsound at {place}"),
    }
}

pub fn answer(rt: &impl Print, answer: Result<(), Refusal>) -> io::Result<()> {
    match answer {
        Ok(()) => print!(rt; " done"),
        Err(refusal) => print!(rt; " refused {} at {}", refusal.reason.number(), refusal.place),
    }
}

fn slot_digest(sum: u64, value: Value) -> u64 {
    let mut cell = [0; 2];
    write_cell(&mut cell, 0, value);
    digest::of_words(sum, &cell)
}

// The slots as cells.
fn slots_digest(scope: Scope) -> u64 {
    let mut sum = 0;
    for at in 0..NAMES {
        sum = slot_digest(sum, Scope::value_of(scope, at));
    }
    sum
}

pub fn state(rt: &impl Print, cells: &[u64], text: &[u8], bindings: Bindings) -> io::Result<()> {
    let words = digest::of_words(0, cells);
    let bytes = digest::of_bytes(text);
    let slots = slots_digest(bindings.scope);
    print!(rt; " cells {} bytes {}", bindings.cells, bindings.bytes)?;
    print!(rt; " digests {words} {bytes} {slots};")
}
