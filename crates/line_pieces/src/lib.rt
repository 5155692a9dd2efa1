// Pieces of text, put into lent memory one behind the other. A byte that finds no room is left out, so a line that grows too long just ends.
// Here: bytes and words. `decimals` and `hexadecimal` put numbers, and `quoting` puts quoted text.
#![tactic(auto)]

pub mod decimals;
pub mod hexadecimal;
pub mod quoting;

ghost use Rattle.line_pieces.specs.Page.{put as Page·put, puts as Page·puts};
ghost use Rattle.line_pieces.specs.Writes.{Writes};

// Lent memory, and where its next byte goes.
#[derive(Drop)]
pub struct Writer<'a> {
    pub out: &'a mut [u8],
    pub at: usize,
}

impl Writer<'_> {
    // The byte, if there is room for it.
    #[tactic(auto, unfolding(crate::specs::Page::put))]
    pub fn put(&mut self, byte: u8)
        ensures { Writes self.old self.new (λ p. Page·put byte p) }
    {
        if self.at < self.out.len() {
            self.out[self.at] = byte;
            self.at += 1;
        }
    }

    #[tactic(auto, using(crate::proofs::Putting::puts_none, crate::proofs::Putting::word_on))]
    pub fn put_word(&mut self, word: &[u8])
        ensures { Writes self.old self.new (λ p. Page·puts word.now p) }
    {
        for byte in word {
            self.put(*byte);
        }
    }
}
