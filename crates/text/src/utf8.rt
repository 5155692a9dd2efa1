// UTF-8: whether a text is well formed, and how many code points it holds. Text that is ASCII is passed over in blocks, the rest a sequence at a
// time.
// (`std::str::from_utf8` takes 1.2 times as long on text without ASCII, and 1.6 times on 64 bytes of ASCII.)
ghost use Rattle.std.specs.Prelude.{◌≡◌, ◌-◌, ◌<◌, ◌≤◌, false, length, MatchOption};
ghost use Rattle.std.specs.List.{list_all};
ghost use Rattle.text.specs.Utf8.{well_formed, code_points};
ghost use Rattle.text.specs.Passing.{is_ascii, Passes};

use crate::sequences::{continues, sequence};

// The sizes of blocks. The longer is tried first, then the shorter; behind what is not ASCII the longer is tried again.
const LONG_BLOCK: usize = 64;

const SHORT_BLOCK: usize = 8;

// Whether a block is ASCII. All of it is looked at, so the compiler reads many bytes at once.
// (`is_ascii` makes a text with few blocks of ASCII take 1.2 to 1.3 times as long.)
fn ascii(block: &[u8]) -> bool
    ensures { result ≡ list_all is_ascii block.now }
{
    block.iter().fold(0, |seen, byte| seen | *byte) < 0x80
}

// The text behind the blocks of ASCII that it begins with.
#[tactic(auto, using(crate::proofs::Utf8Steps::passes_block))]
fn after_blocks(text: &[u8], block: usize) -> &[u8]
    requires { 0 < block }
    ensures { Passes text.now result.now }
{
    let mut rest = text;
    while let Some((first, behind)) = rest.split_at_checked(block) {
        if !ascii(first) {
            break;
        }
        rest = behind;
    }
    rest
}

// The text behind the sequences that begin in its first `count` bytes.
#[tactic(auto, using(crate::proofs::Utf8Steps::sequence_steps))]
fn after_sequences(text: &[u8], count: usize) -> Option<&[u8]>
    ensures { MatchOption result (well_formed text.now ≡ false) (λ rest. Passes text.now rest.now × (length rest.now ≤ length text.now - count)) }
{
    let left = text.len().saturating_sub(count);
    let mut rest = text;
    while left < rest.len() {
        let size = sequence(rest)?;
        rest = &rest[size..];
    }
    Some(rest)
}

// Whether a text is one sequence of the table after another.
#[tactic(auto, using(crate::proofs::Utf8Steps::empty_formed))]
pub fn well_formed(text: &[u8]) -> bool
    ensures { result ≡ well_formed text.now }
{
    let mut rest = text;
    while !rest.is_empty() {
        let mixed = after_blocks(after_blocks(rest, LONG_BLOCK), SHORT_BLOCK);
        let Some(behind) = after_sequences(mixed, LONG_BLOCK) else {
            return false;
        };
        rest = behind;
    }
    true
}

// Each code point has one byte that continues no other, its first; these are counted.
// (A `for`: `filter` with `count` takes 1.7 times as long.)
#[tactic(auto, using(crate::proofs::Utf8Steps::counting), unfolding(crate::specs::Utf8::code_points))]
pub fn code_points(part: &[u8]) -> usize
    ensures { result ≡ code_points part.now }
{
    let mut count = 0;
    for byte in part {
        if !continues(*byte) {
            count += 1;
        }
    }
    count
}
