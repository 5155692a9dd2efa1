// Words that are put where a case lends them.
use program_words::hexadecimal::word_at;

// Words are put from one on, as many as are spelled and fit.
pub fn put_words(cells: &mut [u64], from: usize, bytes: &[u8]) {
    let (words, _) = bytes.as_chunks::<8>();
    for (cell, word) in cells.iter_mut().skip(from).zip(words) {
        *cell = word_at(word, 0);
    }
}
