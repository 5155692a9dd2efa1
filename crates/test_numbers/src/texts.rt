// A text looked through, or two compared.
use crate::answer::Answer;
use crate::hex;

// What is asked of the texts that the words spell; the second word is empty where there is one text.
pub fn answer(name: &[u8], first: &[u8], second: &[u8]) -> Option<Answer> {
    let mut rooms = ([0; 256], [0; 256]);
    let left = hex::text(first, &mut rooms.0)?;
    let right = hex::text(second, &mut rooms.1)?;
    match name {
        b"valid" => Some(Answer::Truth(text::utf8::well_formed(left))),
        b"points" => Some(Answer::Count(text::utf8::code_points(left))),
        b"order" => Some(Answer::Order(Some(text::bytes::compare(left, right)))),
        b"equal" => Some(Answer::Truth(text::bytes::equal(left, right))),
        _ => None,
    }
}
