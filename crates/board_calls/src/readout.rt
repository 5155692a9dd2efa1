// What comes out: a value and its parts, read off their two words, as words.
// The C interface lends words and slices side by side: each function has the parameters and the contract of its namesake in `board`.
ghost use Rattle.std.specs.Prelude.{◌≡◌, List, ℕ};
ghost use Rattle.rooms.specs.Cells.{cell_of};
ghost use Rattle.rooms.specs.Value.{parts_of};
ghost use Rattle.answer_values.specs.Elements.{element_in, present_in};
ghost use Rattle.answer_values.specs.Entries.{key_in, value_in};
ghost use Rattle.board_calls.specs.ReadOut.{reads, reads_part};

use board_words::overlay::value_of;

// What a value is by itself.
pub fn read(head: u64, payload: u64, shape: &mut [u64]) -> u8
    ensures { ◌≡◌ {A = ℕ × List ℕ} (result, shape.new) (reads (cell_of head payload) shape.old) }
{
    let value = value_of(head, payload);
    board_words::shapes::put_shape(shape, value)
}

// Element `index` of a List.
pub fn element(
    binding_cells: &[u64],
    cells: &[u64],
    head: u64,
    payload: u64,
    index: usize,
    part: &mut [u64],
) -> u8
    ensures { ◌≡◌ {A = ℕ × List ℕ} (result, part.new)
        (reads_part (element_in binding_cells.now cells.now (parts_of (cell_of head payload)) index) part.old) }
{
    let value = value_of(head, payload);
    let found = answer_values::elements::element_of(binding_cells, cells, value, index);
    board_words::shapes::put_part(part, found)
}

// The key of entry `index` of a Map.
pub fn key(
    binding_cells: &[u64],
    cells: &[u64],
    head: u64,
    payload: u64,
    index: usize,
    part: &mut [u64],
) -> u8
    ensures { ◌≡◌ {A = ℕ × List ℕ} (result, part.new)
        (reads_part (key_in binding_cells.now cells.now (parts_of (cell_of head payload)) index) part.old) }
{
    let value = value_of(head, payload);
    let found = answer_values::entries::key_of(binding_cells, cells, value, index);
    board_words::shapes::put_part(part, found)
}

// The value of entry `index` of a Map.
pub fn value(
    binding_cells: &[u64],
    cells: &[u64],
    head: u64,
    payload: u64,
    index: usize,
    part: &mut [u64],
) -> u8
    ensures { ◌≡◌ {A = ℕ × List ℕ} (result, part.new)
        (reads_part (value_in binding_cells.now cells.now (parts_of (cell_of head payload)) index) part.old) }
{
    let value = value_of(head, payload);
    let found = answer_values::entries::value_of(binding_cells, cells, value, index);
    board_words::shapes::put_part(part, found)
}

// What a present Optional holds.
pub fn present(
    binding_cells: &[u64],
    cells: &[u64],
    head: u64,
    payload: u64,
    part: &mut [u64],
) -> u8
    ensures { ◌≡◌ {A = ℕ × List ℕ} (result, part.new)
        (reads_part (present_in binding_cells.now cells.now (parts_of (cell_of head payload))) part.old) }
{
    let value = value_of(head, payload);
    let found = answer_values::elements::present_in(binding_cells, cells, value);
    board_words::shapes::put_part(part, found)
}
