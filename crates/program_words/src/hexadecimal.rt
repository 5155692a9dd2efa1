// Bytes in hexadecimal digits, two a byte and in either case, put into lent memory; and words of eight bytes.
ghost use Rattle.std.specs.Prelude.{◌≡◌, ◌+◌, ◌≤◌, ◌<◌, length, IfSome};
ghost use Rattle.std.specs.Counts.{IsPrefixLen};
ghost use Rattle.line_pieces.specs.Page.{Page};
ghost use Rattle.line_pieces.specs.Page.{puts as Page·puts};
ghost use Rattle.line_pieces.specs.Writes.{Writes};
ghost use Rattle.program_words.specs.Hexadecimal.{digit_of, joined, bytes_of, times_of, piece_of, spelled_by, repeated, big_endian};

use crate::decimal::number_of;
use crate::find;
use line_pieces::Writer;

#[tactic(auto, using(crate::proofs::Pairs::digit_ten, crate::proofs::Pairs::digit_lower, crate::proofs::Pairs::digit_upper, crate::proofs::Pairs::no_digit))]
fn digit(byte: u8) -> Option<u8>
    ensures value { result ≡ digit_of byte }
    ensures bound { IfSome result (λ n. n < 16) }
{
    match byte {
        b'0'..=b'9' => Some(byte - b'0'),
        b'a'..=b'f' => Some(byte - b'a' + 10),
        b'A'..=b'F' => Some(byte - b'A' + 10),
        _ => None,
    }
}

// The byte that two digits spell.
fn byte_of(high: u8, low: u8) -> Option<u8>
    ensures { result ≡ joined (digit_of high) (digit_of low) }
{
    Some(digit(high)? * 16 + digit(low)?)
}

// The bytes that the digits spell, up to the first that is no digit.
fn put_digits(page: &mut Writer, word: &[u8])
    ensures { Writes page.old page.new (λ p. Page·puts (bytes_of word.now) p) }
{
    for pair in word.chunks_exact(2) {
        let Some(byte) = byte_of(pair[0], pair[1]) else {
            return;
        };
        page.put(byte);
    }
}

// The bytes that a word of digits spells, up to the first that is no digit and as far as they fit. Says how many.
pub fn put_bytes(word: &[u8], room: &mut [u8]) -> usize
    ensures fact { ◌≡◌ {A = Page} (result, room.new) (Page·puts (bytes_of word.now) (0, room.old)) }
    ensures prefix_len { IsPrefixLen result room.new }
{
    let mut page = Writer { out: room, at: 0 };
    put_digits(&mut page, word);
    page.at
}

// How often a piece is repeated, from its `*` on; once where there is no `*`.
#[tactic(auto, using(crate::proofs::Parts::times_once, crate::proofs::Parts::times_counted))]
fn times(part: &[u8]) -> usize
    ensures { result ≡ times_of part.now }
{
    match part {
        [] => 1,
        [_, count @ ..] => number_of(count).unwrap_or(0),
    }
}

// The bytes of digits, `count` times. It stops at the first time that puts no byte.
fn put_repeated(page: &mut Writer, word: &[u8], count: usize)
    ensures { Writes page.old page.new (λ p. Page·puts (repeated count (bytes_of word.now)) p) }
{
    for _ in 0..count {
        let before = page.at;
        put_digits(page, word);
        if page.at == before {
            return;
        }
    }
}

// A piece: digits, or `DIGITS*COUNT`.
#[tactic(auto, using(crate::proofs::Parts::a_piece))]
fn put_piece(page: &mut Writer, part: &[u8])
    ensures { Writes page.old page.new (λ p. Page·puts (piece_of part.now) p) }
{
    let star = find(part, 0, b'*');
    let count = times(&part[star..]);
    put_repeated(page, &part[..star], count);
}

// The bytes that pieces with `+` between two spell, as far as they fit. Says how many.
pub fn put_pieces(word: &[u8], room: &mut [u8]) -> usize
    ensures fact { ◌≡◌ {A = Page} (result, room.new) (Page·puts (spelled_by word.now) (0, room.old)) }
    ensures prefix_len { IsPrefixLen result room.new }
{
    let mut page = Writer { out: room, at: 0 };
    for part in word.split(|byte| *byte == b'+') {
        put_piece(&mut page, part);
    }
    page.at
}

// The word of eight bytes, the highest first.
pub fn word_at(bytes: &[u8], at: usize) -> u64
    requires { at + 8 ≤ length bytes.now }
    ensures { result ≡ big_endian 0 bytes.now 8 at }
{
    match bytes[at..].first_chunk() {
        Some(word) => u64::from_be_bytes(*word),
        None => unreachable!(),
    }
}
