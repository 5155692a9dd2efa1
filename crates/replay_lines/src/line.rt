// The words of a line, with spaces between, and what they spell.
ghost use Rattle.std.specs.Prelude.{◌≤◌, length, IfSome};
ghost use Rattle.program_words.specs.Reading.{ReadOff};

use program_words::decimal::number_of;
use program_words::find;
use program_words::hexadecimal::put_bytes;

// What is left of a line behind the words that were read.
#[derive(Clone, Copy)]
pub struct Words<'a> {
    pub left: &'a [u8],
}

impl<'a> Words<'a> {
    // The next word; an empty one where none is left.
    pub fn next_word(&mut self) -> &'a [u8]
        ensures { ReadOff self.old.left.now result.now self.new.left.now }
    {
        let spaces = self.left.iter().position(|byte| *byte != b' ');
        let word = &self.left[spaces.unwrap_or(self.left.len())..];
        let (word, left) = word.split_at(find(word, 0, b' '));
        self.left = left;
        word
    }

    // Nothing where a word is left.
    pub fn end(self) -> Option<()> {
        self.left.iter().all(|byte| *byte == b' ').then_some(())
    }

    // A word of decimal digits.
    pub fn number(&mut self) -> Option<usize> {
        number_of(self.next_word())
    }

    // The bytes of a word of hexadecimal digits, two a byte, or `-` for no bytes; how many there are.
    pub fn bytes(&mut self, out: &mut [u8]) -> Option<usize>
        ensures { IfSome result (λ n. n ≤ length out.new) }
    {
        let word = self.next_word();
        let count = put_bytes(word, out);
        match word {
            b"" => None,
            b"-" => Some(0),
            _ if word.len() % 2 == 0 && word.len() / 2 == count => Some(count),
            _ => None,
        }
    }
}
