// A line as words, with one space between two of them, and the numbers in them.
ghost use Rattle.program_words.specs.Reading.{ReadOff};

use program_words::decimal::number_of;
use program_words::find;

// What is left of a line behind the words that were read.
#[derive(Clone, Copy)]
pub struct Words<'a> {
    pub left: &'a [u8],
}

impl<'a> Words<'a> {
    // The next word; an empty one where none is left.
    pub fn next_word(&mut self) -> &'a [u8]
        ensures { ReadOff self.old.left.now result.now self.new.left.now }
    {
        let (word, rest) = self.left.split_at(find(self.left, 0, b' '));
        // behind the space, if there is one
        self.left = &rest[rest.len().min(1)..];
        word
    }
}

// The number that a word spells, or 0 where it spells none.
pub fn number(word: &[u8]) -> usize {
    number_of(word).unwrap_or(0)
}
