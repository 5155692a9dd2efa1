// The library for callers in C and Rust: each function of `board` under its name, by the C calling convention. include/ombravelik.h says how they
// are called. Parameters and results are those of the C interface, so slices and numbers stand side by side.
#![tactic(auto)]

ghost use Rattle.std.specs.Prelude.{◌≡◌, List, ℕ};
ghost use Rattle.rooms.specs.Rooms.{rooms};
ghost use Rattle.rooms.specs.Cells.{cell_of};
ghost use Rattle.rooms.specs.Value.{parts_of};
ghost use Rattle.answer_values.specs.Elements.{element_in, present_in};
ghost use Rattle.answer_values.specs.Entries.{key_in, value_in};
ghost use Rattle.board_state.specs.Bringing.{BindingRoom, binding_room};
ghost use Rattle.board_calls.specs.Intake.{checks, empties, brings};
ghost use Rattle.board_calls.specs.ReadOut.{reads, reads_part};
ghost use Rattle.board_words.specs.Evaluation.{EvaluatesInto};

// Whether a table is accepted, with its literal text.
#[unsafe(no_mangle)]
pub extern "C" fn ombravelik_check(table: &[u8], literal: &[u8], answer: &mut [u64]) -> u8
    ensures { ◌≡◌ {A = ℕ × List ℕ} (result, answer.new) (checks table.now literal.now answer.old) }
{
    board::ombravelik_check(table, literal, answer)
}

// A state of no bindings, whatever it was.
#[unsafe(no_mangle)]
pub extern "C" fn ombravelik_empty(state: &mut [u64]) -> u8
    ensures { ◌≡◌ {A = ℕ × List ℕ} (result, state.new) (empties state.old) }
{
    board::ombravelik_empty(state)
}

// Brings the value that a table spells into a binding room, under a name that has none.
#[unsafe(no_mangle)]
pub extern "C" fn ombravelik_bring_in(
    state: &mut [u64],
    binding_cells: &mut [u64],
    binding_text: &mut [u8],
    name: usize,
    table: &[u8],
    literal: &[u8],
    answer: &mut [u64],
) -> u8
    ensures { ◌≡◌ {A = (ℕ × List ℕ) × BindingRoom} ((result, answer.new), binding_room state.new binding_cells.new binding_text.new) (brings (binding_room state.old binding_cells.old binding_text.old) name table.now literal.now answer.old) }
{
    board::ombravelik_bring_in(
        state,
        binding_cells,
        binding_text,
        name,
        table,
        literal,
        answer,
    )
}

// Evaluates a rule over a binding room.
#[unsafe(no_mangle)]
pub extern "C" fn ombravelik_evaluate(
    table: &[u8],
    literal: &[u8],
    state: &[u64],
    binding_cells: &[u64],
    binding_text: &[u8],
    cells: &mut [u64],
    text: &mut [u8],
    steps: usize,
    answer: &mut [u64],
) -> u8
    ensures { EvaluatesInto table.now state.now steps (rooms literal.now binding_cells.now binding_text.now cells.old text.old) answer.old result answer.new (rooms literal.now binding_cells.now binding_text.now cells.new text.new) }
{
    board::ombravelik_evaluate(
        table,
        literal,
        state,
        binding_cells,
        binding_text,
        cells,
        text,
        steps,
        answer,
    )
}

// What a value is by itself.
#[unsafe(no_mangle)]
pub extern "C" fn ombravelik_read(head: u64, payload: u64, shape: &mut [u64]) -> u8
    ensures { ◌≡◌ {A = ℕ × List ℕ} (result, shape.new) (reads (cell_of head payload) shape.old) }
{
    board::ombravelik_read(head, payload, shape)
}

// Element `index` of a List.
#[unsafe(no_mangle)]
pub extern "C" fn ombravelik_element(
    binding_cells: &[u64],
    cells: &[u64],
    head: u64,
    payload: u64,
    index: usize,
    part: &mut [u64],
) -> u8
    ensures { ◌≡◌ {A = ℕ × List ℕ} (result, part.new) (reads_part (element_in binding_cells.now cells.now (parts_of (cell_of head payload)) index) part.old) }
{
    board::ombravelik_element(binding_cells, cells, head, payload, index, part)
}

// The key of entry `index` of a Map.
#[unsafe(no_mangle)]
pub extern "C" fn ombravelik_key(
    binding_cells: &[u64],
    cells: &[u64],
    head: u64,
    payload: u64,
    index: usize,
    part: &mut [u64],
) -> u8
    ensures { ◌≡◌ {A = ℕ × List ℕ} (result, part.new) (reads_part (key_in binding_cells.now cells.now (parts_of (cell_of head payload)) index) part.old) }
{
    board::ombravelik_key(binding_cells, cells, head, payload, index, part)
}

// The value of entry `index` of a Map.
#[unsafe(no_mangle)]
pub extern "C" fn ombravelik_value(
    binding_cells: &[u64],
    cells: &[u64],
    head: u64,
    payload: u64,
    index: usize,
    part: &mut [u64],
) -> u8
    ensures { ◌≡◌ {A = ℕ × List ℕ} (result, part.new) (reads_part (value_in binding_cells.now cells.now (parts_of (cell_of head payload)) index) part.old) }
{
    board::ombravelik_value(binding_cells, cells, head, payload, index, part)
}

// What a present Optional holds.
#[unsafe(no_mangle)]
pub extern "C" fn ombravelik_present(
    binding_cells: &[u64],
    cells: &[u64],
    head: u64,
    payload: u64,
    part: &mut [u64],
) -> u8
    ensures { ◌≡◌ {A = ℕ × List ℕ} (result, part.new) (reads_part (present_in binding_cells.now cells.now (parts_of (cell_of head payload))) part.old) }
{
    board::ombravelik_present(binding_cells, cells, head, payload, part)
}
