// What the words of a line spell, numbers in decimal digits and bytes in hexadecimal ones, and where a word ends.
#![tactic(auto)]

ghost use Rattle.std.specs.Prelude.{◌≡◌, ◌==◌, ◌≤◌, min, length, position};
ghost use Rattle.program_words.specs.Place.{place_from};

pub mod decimal;
pub mod hexadecimal;

// The first place that holds `byte`.
fn place(bytes: &[u8], byte: u8) -> Option<usize>
    ensures { result ≡ position (λ x. x == byte) bytes.now }
{
    bytes.iter().position(|found| *found == byte)
}

// The first place from `from` on that holds `byte`; the end where there is none.
#[tactic(auto, using(crate::proofs::Places::place_after))]
pub fn find(bytes: &[u8], from: usize, byte: u8) -> usize
    ensures value { result ≡ place_from byte bytes.now from }
    ensures lower_bound { (min from (length bytes.now) ≤ result) × (result ≤ length bytes.now) }
{
    let start = from.min(bytes.len());
    start + place(&bytes[start..], byte).unwrap_or(bytes.len() - start)
}
