// A binding room as a caller lends it, with any contents: whether it is one that bindings make, and if not, the first bad cell.
// Here: the verdict on the whole `room`. `values` judges what a cell or a slot holds, `references` what that refers to, and `map_keys` the keys of
// a Map.
#![tactic(auto, using(crate::proofs::SoundSteps::bad_turn, crate::proofs::SoundSteps::bad_none, crate::proofs::SoundSteps::slots_turn, crate::proofs::SoundSteps::slots_none), unfolding(crate::specs::Sound::sound_of))]

pub mod map_keys;
pub mod references;
pub mod room;
pub mod values;

ghost use Rattle.std.specs.Prelude.{◌≡◌};
ghost use Rattle.meaning.specs.Limits.{names};
ghost use Rattle.bindings_sound.specs.Sound.{first_bad, slots_fit, sound_of};

use crate::room::Room;
use rooms::scope::Scope;
use rooms_cells::read_cell;
use rooms_taking::{cell_room, text_room};

// What the names hold, and how much of the lent cells and text is used.
#[derive(Clone, Copy)]
pub struct Bindings {
    pub scope: Scope,
    pub cells: usize,
    pub bytes: usize,
}

// The first bad cell, if there is one. A cell may refer only to later ones.
fn first_bad(room: &Room) -> Option<usize>
    ensures { result ≡ first_bad room.now.cells.now room.now.text.now room.now.used room.now.bytes 0 room.now.used }
{
    for at in 0..room.used {
        if !room.value_fits(at + 1, read_cell(room.cells, at)) {
            return Some(at);
        }
    }
    None
}

fn slots_fit(room: &Room, scope: Scope) -> bool
    ensures { result ≡ slots_fit room.now.cells.now room.now.text.now room.now.used room.now.bytes scope 0 names }
{
    for slot in &scope.slots {
        if !room.slot_fits(slot.value) {
            return false;
        }
    }
    true
}

// The cells below the used count are judged one by one, each by what it says and what the cells it refers to say.
// The error is the first bad cell; 0 where no cell is bad, but a slot or a used count.
// The slots are judged first, which saves a copy of the scope.
pub fn sound(cells: &[u64], text: &[u8], bindings: Bindings) -> Result<(), usize>
    ensures { result ≡ sound_of cells.now text.now bindings }
{
    let room = Room {
        cells,
        text,
        used: bindings.cells.min(cell_room(cells)),
        bytes: bindings.bytes.min(text_room(text)),
    };
    let fit = slots_fit(&room, bindings.scope);
    if let Some(bad) = first_bad(&room) {
        return Err(bad);
    }
    if room.used < bindings.cells {
        return Err(0);
    }
    if room.bytes < bindings.bytes {
        return Err(0);
    }
    if fit { Ok(()) } else { Err(0) }
}
