// Lent memory: how much of it a count names, and what it is filled with before a run.
ghost use Rattle.std.specs.Prelude.{◌≡◌, ◌*◌, min, length, true};
ghost use Rattle.std.specs.Counts.{IsPrefixLen};
ghost use Rattle.program_memory.specs.BeforeRun.{lent_word, lent_byte, all_are};

pub const WORD: u64 = 0xA5A5_A5A5_A5A5_A5A5;

pub const BYTE: u8 = 0xA5;

// The number of words in `count` cells, or in all cells if there are fewer.
pub fn words_of(cells: &[u64], count: usize) -> usize
    ensures value { result ≡ min (count * 2) (length cells.now) }
    ensures prefix_len { IsPrefixLen result cells.now }
{
    count.saturating_mul(2).min(cells.len())
}

// `count` bytes, or all bytes if there are fewer.
pub fn bytes_of(text: &[u8], count: usize) -> usize
    ensures value { result ≡ min count (length text.now) }
    ensures prefix_len { IsPrefixLen result text.now }
{
    count.min(text.len())
}

// All of it.
pub fn fill(cells: &mut [u64], text: &mut [u8])
    ensures { (all_are lent_word cells.new ≡ true) × (all_are lent_byte text.new ≡ true) }
{
    cells.fill(WORD);
    text.fill(BYTE);
}
