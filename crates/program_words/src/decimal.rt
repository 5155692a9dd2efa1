// Numbers in decimal digits.
ghost use Rattle.std.specs.Prelude.{◌≡◌};
ghost use Rattle.program_words.specs.Decimal.{number_of};
ghost use Rattle.program_words.specs.Decimal.{longer as Decimal·longer};

// One digit more; a number that grows too large stays the largest.
fn longer(number: usize, digit: u8) -> usize
    ensures { result ≡ Decimal·longer number digit }
{
    number.saturating_mul(10).saturating_add(digit as usize)
}

// A word of decimal digits, at least one.
#[tactic(auto, using(crate::proofs::Numerals::number_none, crate::proofs::Numerals::number_some), unfolding(crate::specs::Decimal::number_from))]
pub fn number_of(word: &[u8]) -> Option<usize>
    ensures { result ≡ number_of word.now }
{
    if word.is_empty() {
        return None;
    }
    let mut number = 0;
    for byte in word {
        if !byte.is_ascii_digit() {
            return None;
        }
        number = longer(number, byte - b'0');
    }
    Some(number)
}
