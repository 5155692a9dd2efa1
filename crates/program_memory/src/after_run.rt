// Whether lent memory is as it must be after an evaluation, if it was filled before.
ghost use Rattle.std.specs.Prelude.{◌≡◌, ◌&&◌, ◌↔◌, IsTrue, EachIndex, slice_index_or};
ghost use Rattle.program_memory.specs.AfterRun.{as_lent, cleared, kept};

use crate::before_run::{BYTE, WORD, bytes_of, words_of};
use answer::Answer;
use machine::outcome::Used;

// Whether each element is this one.
fn all_are<T: PartialEq + Copy>(all: &[T], one: T) -> bool
    ensures { IsTrue result ↔ EachIndex all.now (λ k. IsTrue (T.eq (slice_index_or all.now k one) one)) }
{
    all.iter().all(|element| *element == one)
}

// Above the counts.
fn is_as_lent(cells: &[u64], text: &[u8], used: Used) -> bool
    ensures { result ≡ as_lent cells.now text.now used }
{
    let words = words_of(cells, used.cells);
    let bytes = bytes_of(text, used.bytes);
    all_are(&cells[words..], WORD) && all_are(&text[bytes..], BYTE)
}

// Below the counts.
fn is_cleared(cells: &[u64], text: &[u8], used: Used) -> bool
    ensures { result ≡ cleared cells.now text.now used }
{
    let words = words_of(cells, used.cells);
    let bytes = bytes_of(text, used.bytes);
    all_are(&cells[..words], 0) && all_are(&text[..bytes], 0)
}

// After an error or exhaustion.
fn is_ended(cells: &[u64], text: &[u8], used: Used) -> bool
    ensures { result ≡ (as_lent cells.now text.now used && cleared cells.now text.now used) }
{
    is_as_lent(cells, text, used) && is_cleared(cells, text, used)
}

// Unchanged above the counts, and zero below them unless there is a value. A refusal counts nothing.
pub fn is_kept(cells: &[u64], text: &[u8], answer: Answer) -> bool
    ensures { result ≡ kept cells.now text.now answer }
{
    match answer {
        Answer::Refused(_) => is_as_lent(
            cells,
            text,
            Used {
                steps: 0,
                cells: 0,
                bytes: 0,
            },
        ),
        Answer::Value(_, used) => is_as_lent(cells, text, used),
        Answer::Error(_, _, used) => is_ended(cells, text, used),
        Answer::Exhausted(_, used) => is_ended(cells, text, used),
    }
}
