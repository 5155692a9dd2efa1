// Words laid over the first words of a lent slice, with the number that is returned; and values as the two words of a cell.
ghost use Rattle.std.specs.Prelude.{◌≡◌, List, [], ◌∷◌, ℕ};
ghost use Rattle.rooms.specs.Cells.{head_of, payload_of, cell_of};
ghost use Rattle.board_words.specs.Overlay.{handed};

use rooms::value::Value;
use rooms_cells::{read_cell, write_cell};

// The lent slice is too short for the words that are to be written; nothing was written.
pub const NO_ROOM: u8 = 255;

// Where there is room for the words they are written, and the number is returned.
#[tactic(auto, using(crate::proofs::OverlaySteps::too_few, crate::proofs::OverlaySteps::enough))]
pub fn hand(lent: &mut [u64], words: &[u64], number: u8) -> u8
    ensures { ◌≡◌ {A = ℕ × List ℕ} (result, lent.new) (handed number words.now lent.old) }
{
    if lent.len() < words.len() {
        return NO_ROOM;
    }
    lent[..words.len()].copy_from_slice(words);
    number
}

// The words of a value: a head and a payload.
#[tactic(auto, using(crate::proofs::OverlaySteps::written_alone))]
pub fn words_of(value: Value) -> [u64; 2]
    ensures { result ≡ head_of value ∷ payload_of value ∷ [] }
{
    let mut cell = [0, 0];
    write_cell(&mut cell, 0, value);
    cell
}

// The value of two words; `Absent` where they are no value.
#[tactic(auto, using(crate::proofs::OverlaySteps::cell_alone))]
pub fn value_of(head: u64, payload: u64) -> Value
    ensures { result ≡ cell_of head payload }
{
    let cell = [head, payload];
    read_cell(&cell, 0)
}
