// Hexadecimal digits, put into lent memory one behind the other.
ghost use Rattle.std.specs.Prelude.{◌≡◌, ◌<◌};
ghost use Rattle.line_pieces.specs.Page.{puts as Page·puts};
ghost use Rattle.line_pieces.specs.Spelled.{digit_of, hexadecimal};
ghost use Rattle.line_pieces.specs.Writes.{Writes};

use crate::Writer;

// 0 to 9, A to F.
pub fn digit(number: u64) -> u8
    requires { number < 16 }
    ensures { result ≡ digit_of number }
{
    if number < 10 {
        b'0' + (number as u8)
    } else {
        b'7' + (number as u8)
    }
}

impl Writer<'_> {
    // The last `count` hexadecimal digits of a number.
    #[tactic(auto, using(crate::proofs::Numerals::digits_none, crate::proofs::Numerals::digits_last))]
    pub fn put_digits(&mut self, number: u64, count: usize)
        ensures { Writes self.old self.new (λ p. Page·puts (hexadecimal count number) p) }
    {
        if count == 0 {
            return;
        }
        self.put_digits(number / 16, count - 1);
        self.put(digit(number % 16));
    }
}
