// Quoted text, put into lent memory: what is not plain is escaped.
ghost use Rattle.std.specs.Prelude.{◌≡◌};
ghost use Rattle.line_pieces.specs.Page.{puts as Page·puts};
ghost use Rattle.line_pieces.specs.Spelled.{is_plain, escaped, quoted};
ghost use Rattle.line_pieces.specs.Writes.{Writes};

use crate::Writer;

// Printable ASCII stands for itself, but for the quote and the backslash.
fn is_plain(byte: u8) -> bool
    ensures { result ≡ is_plain byte }
{
    matches!(byte, b' '..=b'~') && byte != b'"' && byte != b'\\'
}

impl Writer<'_> {
    #[tactic(auto, using(crate::proofs::QuotedText::escaped_plain, crate::proofs::QuotedText::escaped_other))]
    fn put_escaped(&mut self, byte: u8)
        ensures { Writes self.old self.new (λ p. Page·puts (escaped byte) p) }
    {
        if is_plain(byte) {
            self.put(byte);
        } else {
            self.put_word(b"\\x");
            self.put_digits(byte as u64, 2);
        }
    }

    #[tactic(auto, using(crate::proofs::QuotedText::escapes_none, crate::proofs::QuotedText::escapes_on, crate::proofs::QuotedText::quoted_whole))]
    pub fn put_quoted(&mut self, text: &[u8])
        ensures { Writes self.old self.new (λ p. Page·puts (quoted text.now) p) }
    {
        self.put(b'"');
        for byte in text {
            self.put_escaped(*byte);
        }
        self.put(b'"');
    }
}
