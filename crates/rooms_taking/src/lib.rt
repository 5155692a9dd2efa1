// Room for the cells and the text of a run.
// Here: how much is lent, room taken of it, and all that was taken cleared after an error or exhaustion. `copying` copies the parts of a value to
// where room was taken for them.
#![tactic(auto)]

pub mod copying;

ghost use Rattle.std.specs.Prelude.{◌≡◌, ◌+◌, ◌≤◌, length};
ghost use Rattle.rooms_taking.specs.Taking.{cell_room, text_room, taken_of, zeroed, cells_taken, cells_cleared, bytes_cleared};

const MOST_CELLS: usize = 4096;

const MOST_BYTES: usize = 16384;

// The cells that are lent, up to the limit.
pub fn cell_room(cells: &[u64]) -> usize
    ensures { result ≡ cell_room cells.now }
{
    (cells.len() / 2).min(MOST_CELLS)
}

// The bytes of text that are lent, up to the limit.
pub fn text_room(text: &[u8]) -> usize
    ensures { result ≡ text_room text.now }
{
    text.len().min(MOST_BYTES)
}

// How much is used after `count` more were taken of a room of which `used` is used; none if there is not enough room.
fn take_room(room: usize, used: usize, count: usize) -> Option<usize>
    ensures { result ≡ taken_of room used count }
{
    if room < used {
        return None;
    }
    if room - used < count {
        None
    } else {
        Some(used + count)
    }
}

// Bytes of the evaluation's text are taken: they are written afterwards.
pub fn take_text(text: &[u8], used: usize, count: usize) -> Option<usize>
    ensures { result ≡ taken_of (text_room text.now) used count }
{
    take_room(text_room(text), used, count)
}

// Cells of the evaluation are taken, and are Null until something is stored in them.
pub fn take_cells(cells: &mut [u64], used: usize, count: usize) -> Option<usize>
    ensures { (result ≡ taken_of (cell_room cells.old) used count) × (cells.new ≡ cells_taken cells.old used count) }
{
    let taken = take_room(cell_room(cells), used, count)?;
    cells[used * 2..taken * 2].fill(0);
    Some(taken)
}

// After an error or exhaustion: the cells that were taken become zero, or all cells if there are fewer.
pub fn clear_cells(cells: &mut [u64], used: usize)
    ensures { cells.new ≡ cells_cleared cells.old used }
{
    let cleared = used.min(cells.len() / 2);
    cells[..cleared * 2].fill(0);
}

pub fn clear_text(text: &mut [u8], used: usize)
    ensures { text.new ≡ bytes_cleared text.old used }
{
    let cleared = used.min(text.len());
    text[..cleared].fill(0);
}
