// What a line asks to be evaluated.
ghost use Rattle.std.specs.Prelude.{◌≤◌, length, IfSome};

use crate::line::Words;

// What an `eval` line lends, and how many bytes of literal text and of table it spells.
#[derive(Clone, Copy)]
pub struct Lent {
    pub steps: usize,
    pub cells: usize,
    pub bytes: usize,
    pub literal: usize,
    pub table: usize,
}

// `eval STEPS CELLS TEXT TEXTHEX TABLEHEX`.
pub fn asked_from(words: &mut Words, literal: &mut [u8], table: &mut [u8]) -> Option<Lent>
    ensures { IfSome result (λ l. (l.literal ≤ length literal.new) × (l.table ≤ length table.new)) }
{
    let steps = words.number()?;
    let cells = words.number()?;
    let bytes = words.number()?;
    let literal = words.bytes(literal)?;
    let table = words.bytes(table)?;
    words.end()?;
    Some(Lent {
        steps,
        cells,
        bytes,
        literal,
        table,
    })
}
