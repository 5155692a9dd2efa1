// Numbers in decimal digits, put into lent memory.
ghost use Rattle.line_pieces.specs.Page.{puts as Page·puts};
ghost use Rattle.line_pieces.specs.Spelled.{decimal, signed};
ghost use Rattle.line_pieces.specs.Writes.{Writes};

use crate::Writer;
use crate::hexadecimal::digit;

// Kept (d): std's `write!` says what it put only where it returns `Ok`, which no clause promises; these contracts hold on every input.
impl Writer<'_> {
    // In decimal digits.
    #[tactic(auto, using(crate::proofs::Numerals::number_one, crate::proofs::Numerals::number_more))]
    pub fn put_number(&mut self, number: u64)
        ensures { Writes self.old self.new (λ p. Page·puts (decimal number) p) }
    {
        if 10 <= number {
            self.put_number(number / 10);
        }
        self.put(digit(number % 10));
    }

    #[tactic(auto, using(crate::proofs::Numerals::signed_negative, crate::proofs::Numerals::signed_positive))]
    pub fn put_signed(&mut self, number: i64)
        ensures { Writes self.old self.new (λ p. Page·puts (signed number) p) }
    {
        if number < 0 {
            self.put(b'-');
        }
        self.put_number(number.unsigned_abs());
    }
}
