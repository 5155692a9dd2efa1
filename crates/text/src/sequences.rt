// One sequence of UTF-8: how many bytes it has, worked out from its first byte and tested against the table's ranges. A sequence is taken whole,
// so a text that breaks off inside one is seen there.
ghost use Rattle.std.specs.Prelude.{◌≡◌, [], ◌∷◌};
ghost use Rattle.text.specs.Utf8.{◌to◌, inside};
ghost use Rattle.text.specs.Sequence.{second_of, sized, sequence_of};

// The first byte of a sequence of two, of three and of four bytes is at least this, and at most the last of these. A byte above the last begins no
// sequence, and neither does one from 0x80 on that is below the first.
pub const TWO: u8 = 0xC2;

pub const THREE: u8 = 0xE0;

pub const FOUR: u8 = 0xF0;

pub const LAST: u8 = 0xF4;

// Whether a byte continues a code point that an earlier byte begins.
#[tactic(auto, using(crate::proofs::Table::ranges))]
pub fn continues(byte: u8) -> bool
    ensures { result ≡ inside (0x80 to 0xBF) byte }
{
    matches!(byte, 0x80..=0xBF)
}

// The second byte has the range of the bytes behind it, but for four first bytes.
#[tactic(auto, using(crate::proofs::Table::ranges))]
fn second_fits(first: u8, second: u8) -> bool
    ensures { result ≡ inside (second_of first) second }
{
    match first {
        0xE0 => matches!(second, 0xA0..=0xBF),
        0xED => matches!(second, 0x80..=0x9F),
        0xF0 => matches!(second, 0x90..=0xBF),
        0xF4 => matches!(second, 0x80..=0x8F),
        _ => continues(second),
    }
}

// The bytes of a sequence of two, of three and of four, from those behind the first.
// (Three functions: one for all lengths has 0.2 to 0.9 of their speed, and one `match` on the whole text 0.2 to 0.8.)
#[tactic(auto, using(crate::proofs::SequenceLaws::later))]
fn of_two(rest: &[u8]) -> Option<usize>
    ensures { result ≡ sized (Some (0x80 to 0xBF ∷ [])) rest.now }
{
    match rest {
        [second, ..] if continues(*second) => Some(2),
        _ => None,
    }
}

#[tactic(auto, using(crate::proofs::SequenceLaws::later))]
fn of_three(first: u8, rest: &[u8]) -> Option<usize>
    ensures { result ≡ sized (Some (second_of first ∷ 0x80 to 0xBF ∷ [])) rest.now }
{
    match rest {
        [second, third, ..] if second_fits(first, *second) && continues(*third) => Some(3),
        _ => None,
    }
}

#[tactic(auto, using(crate::proofs::SequenceLaws::later))]
fn of_four(first: u8, rest: &[u8]) -> Option<usize>
    ensures { result ≡ sized (Some (second_of first ∷ 0x80 to 0xBF ∷ 0x80 to 0xBF ∷ [])) rest.now }
{
    match rest {
        [second, third, fourth, ..]
            if second_fits(first, *second) && continues(*third) && continues(*fourth) => Some(4),
        _ => None,
    }
}

// The bytes of the sequence that a text begins with.
#[tactic(auto, using(crate::proofs::SequenceLaws::first_byte))]
pub fn sequence(text: &[u8]) -> Option<usize>
    ensures { result ≡ sequence_of text.now }
{
    let (first, rest) = text.split_first()?;
    match *first {
        0x00..=0x7F => Some(1),
        TWO..=0xDF => of_two(rest),
        THREE..=0xEF => of_three(*first, rest),
        FOUR..=LAST => of_four(*first, rest),
        _ => None,
    }
}
