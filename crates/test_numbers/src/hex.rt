// Numbers and texts spelled by hexadecimal digits in lower case.
use program_words::hexadecimal::{put_bytes, word_at};

// Whether a byte is neither a decimal digit nor in lower case.
fn has_upper(word: &[u8]) -> bool {
    word.iter().any(|byte| b'9' < *byte && *byte < b'a')
}

// The number that 16 digits spell.
pub fn number(word: &[u8]) -> Option<u64> {
    let mut bytes = [0; 8];
    if word.len() != 16 || has_upper(word) || put_bytes(word, &mut bytes) != 8 {
        return None;
    }
    Some(word_at(&bytes, 0))
}

// The text that a word spells, put into the room. `-` spells the empty text.
pub fn text<'a>(word: &[u8], room: &'a mut [u8]) -> Option<&'a [u8]> {
    let count = put_bytes(word, room);
    match word {
        b"-" => Some(&room[..0]),
        _ if word.len() % 2 == 0 && word.len() / 2 == count && !has_upper(word) => Some(
            &room[..count],
        ),
        _ => None,
    }
}
