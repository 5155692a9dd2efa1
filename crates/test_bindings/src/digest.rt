// One number for all that is in a slice, so that a run can be compared with what was expected of it.

pub const PRIME: u64 = 1000003;

fn mix(digest: u64, item: u64) -> u64 {
    (digest % PRIME * 31 + item % PRIME) % PRIME
}

fn word(digest: u64, item: u64) -> u64 {
    mix(mix(digest, item), item / PRIME)
}

// Behind what was taken in before.
pub fn of_words(before: u64, words: &[u64]) -> u64 {
    words
        .iter()
        .fold(before, |digest, item| word(digest, *item))
}

pub fn of_bytes(bytes: &[u8]) -> u64 {
    let items = bytes.iter().map(|byte| u64::from(*byte));
    items.fold(0, mix)
}
