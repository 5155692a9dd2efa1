// A value as a caller in another language reads it: six words that say what it is by itself, and the two words of a part.
ghost use Rattle.std.specs.Prelude.{◌≡◌, List, ℕ};
ghost use Rattle.board_words.specs.Overlay.{handed};
ghost use Rattle.answer_values.specs.Kinds.{kind_of};
ghost use Rattle.board_words.specs.Shapes.{number_word, span_words, shape_of, part_of};

use crate::overlay::{hand, words_of};
use answer_values::kinds::kind_of;
use answer_values::spans_and_counts::{count_of, text_of};
use rooms::value::{Span, Value};
use rooms_cells::packing::{payload_of, text_number};

fn number_word(value: Value) -> u64
    ensures { result ≡ number_word value }
{
    match value {
        Value::Bool(_) => payload_of(value),
        Value::Int(_) => payload_of(value),
        Value::Uint(_) => payload_of(value),
        Value::Double(_) => payload_of(value),
        Value::Nan(_) => payload_of(value),
        _ => 0,
    }
}

fn span_words(span: Option<Span>) -> [u64; 3]
    ensures { result ≡ span_words span }
{
    match span {
        Some(span) => [
            text_number(span.space),
            span.first as u64,
            u64::from(span.length),
        ],
        None => [0, 0, 0],
    }
}

// The kind is returned too.
pub fn put_shape(lent: &mut [u64], value: Value) -> u8
    ensures { ◌≡◌ {A = ℕ × List ℕ} (result, lent.new) (handed (kind_of value) (shape_of value) lent.old) }
{
    let kind = kind_of(value);
    let number = number_word(value);
    let span = span_words(text_of(value));
    let count = count_of(value);
    let words = [
        u64::from(kind),
        number,
        span[0],
        span[1],
        span[2],
        u64::from(count),
    ];
    hand(lent, &words, kind)
}

// Its kind is returned. (Inlined: as a call of its own it is handed the part through memory, which makes reading one take up to twice as long.)
#[inline(always)]
pub fn put_part(lent: &mut [u64], part: Value) -> u8
    ensures { ◌≡◌ {A = ℕ × List ℕ} (result, lent.new) (handed (kind_of part) (part_of part) lent.old) }
{
    let words = words_of(part);
    hand(lent, &words, kind_of(part))
}
