// A line as words, with one space between two of them.

// The word with this index, counted from 0; an empty one where the line has fewer.
pub fn word(line: &[u8], index: usize) -> &[u8] {
    let mut words = line.split(|byte| *byte == b' ');
    words.nth(index).unwrap_or(&line[..0])
}
