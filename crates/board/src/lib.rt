// The evaluator for callers in C and Rust: numbers and slices only. Whatever is lent, there is an answer. The crate `board_c` exports these
// functions, and include/ombravelik.h says how they are called.
// The C interface lends slices side by side and takes numbers for answers, so these functions do so too.
#![tactic(auto)]

ghost use Rattle.std.specs.Prelude.{◌≡◌, List, ℕ};
ghost use Rattle.rooms.specs.Rooms.{rooms};
ghost use Rattle.rooms.specs.Cells.{cell_of};
ghost use Rattle.rooms.specs.Value.{parts_of};
ghost use Rattle.answer_values.specs.Elements.{element_in, present_in};
ghost use Rattle.answer_values.specs.Entries.{key_in, value_in};
ghost use Rattle.answer.specs.Meant.{Evaluates};
ghost use Rattle.board_state.specs.State.{bindings_in};
ghost use Rattle.board_state.specs.Bringing.{BindingRoom, binding_room};
ghost use Rattle.board_calls.specs.Intake.{checks, empties, brings};
ghost use Rattle.board_calls.specs.ReadOut.{reads, reads_part};
ghost use Rattle.board_words.specs.Evaluation.{EvaluatesInto};

use answer::Answer;
use board_words::answers::ANSWER_WORDS;
use board_words::overlay::NO_ROOM;

// Whether a table is accepted, with its literal text.
pub fn ombravelik_check(table: &[u8], literal: &[u8], answer: &mut [u64]) -> u8
    ensures { ◌≡◌ {A = ℕ × List ℕ} (result, answer.new) (checks table.now literal.now answer.old) }
{
    board_calls::intake::check(table, literal, answer)
}

// A state of no bindings, whatever it was.
pub fn ombravelik_empty(state: &mut [u64]) -> u8
    ensures { ◌≡◌ {A = ℕ × List ℕ} (result, state.new) (empties state.old) }
{
    board_calls::intake::empty(state)
}

// Brings the value that a table spells into a binding room, under a name that has none.
pub fn ombravelik_bring_in(
    state: &mut [u64],
    binding_cells: &mut [u64],
    binding_text: &mut [u8],
    name: usize,
    table: &[u8],
    literal: &[u8],
    answer: &mut [u64],
) -> u8
    ensures { ◌≡◌ {A = (ℕ × List ℕ) × BindingRoom} ((result, answer.new), binding_room state.new binding_cells.new binding_text.new) (brings (binding_room state.old binding_cells.old binding_text.old) name table.now literal.now answer.old) }
{
    board_calls::intake::bring_in(
        state,
        binding_cells,
        binding_text,
        name,
        table,
        literal,
        answer,
    )
}

// Whatever the words of the state hold, they stand for bindings.
fn evaluate_over(
    table: &[u8],
    literal: &[u8],
    state: &[u64],
    binding_cells: &[u64],
    binding_text: &[u8],
    cells: &mut [u64],
    text: &mut [u8],
    steps: usize,
) -> Answer
    ensures { Evaluates table.now (bindings_in state.now) steps (rooms literal.now binding_cells.now binding_text.now cells.old text.old) result (rooms literal.now binding_cells.now binding_text.now cells.new text.new) }
{
    let bindings = board_state::bindings_in(state);
    evaluator::evaluate(
        table,
        literal,
        bindings,
        binding_cells,
        binding_text,
        cells,
        text,
        steps,
    )
}

// Evaluates a rule over a binding room.
#[tactic(auto, using(crate::proofs::EvaluationSteps::evaluates_none))]
pub fn ombravelik_evaluate(
    table: &[u8],
    literal: &[u8],
    state: &[u64],
    binding_cells: &[u64],
    binding_text: &[u8],
    cells: &mut [u64],
    text: &mut [u8],
    steps: usize,
    answer: &mut [u64],
) -> u8
    ensures { EvaluatesInto table.now state.now steps (rooms literal.now binding_cells.now binding_text.now cells.old text.old) answer.old result answer.new (rooms literal.now binding_cells.now binding_text.now cells.new text.new) }
{
    if answer.len() < ANSWER_WORDS {
        return NO_ROOM;
    }
    let said = evaluate_over(
        table,
        literal,
        state,
        binding_cells,
        binding_text,
        cells,
        text,
        steps,
    );
    board_words::answers::put_answer(answer, said)
}

// What a value is by itself.
pub fn ombravelik_read(head: u64, payload: u64, shape: &mut [u64]) -> u8
    ensures { ◌≡◌ {A = ℕ × List ℕ} (result, shape.new) (reads (cell_of head payload) shape.old) }
{
    board_calls::readout::read(head, payload, shape)
}

// Element `index` of a List.
pub fn ombravelik_element(
    binding_cells: &[u64],
    cells: &[u64],
    head: u64,
    payload: u64,
    index: usize,
    part: &mut [u64],
) -> u8
    ensures { ◌≡◌ {A = ℕ × List ℕ} (result, part.new) (reads_part (element_in binding_cells.now cells.now (parts_of (cell_of head payload)) index) part.old) }
{
    board_calls::readout::element(binding_cells, cells, head, payload, index, part)
}

// The key of entry `index` of a Map.
pub fn ombravelik_key(
    binding_cells: &[u64],
    cells: &[u64],
    head: u64,
    payload: u64,
    index: usize,
    part: &mut [u64],
) -> u8
    ensures { ◌≡◌ {A = ℕ × List ℕ} (result, part.new) (reads_part (key_in binding_cells.now cells.now (parts_of (cell_of head payload)) index) part.old) }
{
    board_calls::readout::key(binding_cells, cells, head, payload, index, part)
}

// The value of entry `index` of a Map.
pub fn ombravelik_value(
    binding_cells: &[u64],
    cells: &[u64],
    head: u64,
    payload: u64,
    index: usize,
    part: &mut [u64],
) -> u8
    ensures { ◌≡◌ {A = ℕ × List ℕ} (result, part.new) (reads_part (value_in binding_cells.now cells.now (parts_of (cell_of head payload)) index) part.old) }
{
    board_calls::readout::value(binding_cells, cells, head, payload, index, part)
}

// What a present Optional holds.
pub fn ombravelik_present(
    binding_cells: &[u64],
    cells: &[u64],
    head: u64,
    payload: u64,
    part: &mut [u64],
) -> u8
    ensures { ◌≡◌ {A = ℕ × List ℕ} (result, part.new) (reads_part (present_in binding_cells.now cells.now (parts_of (cell_of head payload))) part.old) }
{
    board_calls::readout::present(binding_cells, cells, head, payload, part)
}
