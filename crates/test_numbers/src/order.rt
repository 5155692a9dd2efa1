// Two numbers, each of a kind of its own, compared.
use crate::answer::Answer;
use numbers::double::Double;
use numbers::order::Number;

fn number_of(kind: &[u8], word: &[u8]) -> Option<Number> {
    let bits = crate::hex::number(word)?;
    match kind {
        b"int" => Some(Number::Int(bits.cast_signed())),
        b"uint" => Some(Number::Uint(bits)),
        b"double" => Some(Number::Double(Double::from_bits(bits))),
        _ => None,
    }
}

// Their order where the family is `order`, and otherwise whether they are equal.
pub fn answer(
    family: &[u8],
    kind: &[u8],
    other: &[u8],
    left: &[u8],
    right: &[u8],
) -> Option<Answer> {
    let x = number_of(kind, left)?;
    let y = number_of(other, right)?;
    match family {
        b"order" => Some(Answer::Order(numbers_order::compare(x, y))),
        _ => Some(Answer::Truth(numbers_order::equal(x, y))),
    }
}
