// A Bool and a number of a value, put into lent memory.
ghost use Rattle.meaning.specs.Value.{bool};
ghost use Rattle.rooms_comparison.specs.Seen.{number_scalar};
ghost use Rattle.line_pieces.specs.Page.{puts};
ghost use Rattle.line_pieces.specs.Writes.{Writes};
ghost use Rattle.line_values.specs.Written.{written_scalar};

use line_pieces::Writer;
use numbers::order::Number;

// Hexadecimal digits of a Double.
const DIGITS: usize = 16;

#[tactic(auto, unfolding(crate::specs::Written::written_scalar))]
pub fn put_bool(page: &mut Writer, truth: bool)
    ensures { Writes page.old page.new (λ p. puts (written_scalar (bool truth)) p) }
{
    if truth {
        page.put_word(b"Bool true");
    } else {
        page.put_word(b"Bool false");
    }
}

#[tactic(auto, using(crate::proofs::Steps::int_put, crate::proofs::Steps::uint_put, crate::proofs::Steps::double_put))]
pub fn put_numeral(page: &mut Writer, number: Number)
    ensures { Writes page.old page.new (λ p. puts (written_scalar (number_scalar number)) p) }
{
    match number {
        Number::Int(int) => {
            page.put_word(b"Int ");
            page.put_signed(int);
        }
        Number::Uint(uint) => {
            page.put_word(b"Uint ");
            page.put_number(uint);
        }
        Number::Double(double) => {
            page.put_word(b"Double 0x");
            page.put_digits(double.to_bits(), DIGITS);
        }
    }
}
