// What goes in: a table checked, a state emptied, a binding brought in, with the answer as words.
ghost use Rattle.std.specs.Prelude.{◌≡◌, List, ℕ};
ghost use Rattle.board_state.specs.Bringing.{BindingRoom, binding_room};
ghost use Rattle.board_calls.specs.Intake.{checks, empties, brings};

use board_state::STATE_WORDS;
use board_words::answers::{ANSWER_WORDS, Which};
use board_words::overlay::NO_ROOM;

// Whether a table is accepted, with its literal text.
pub fn check(table: &[u8], literal: &[u8], answer: &mut [u64]) -> u8
    ensures { ◌≡◌ {A = ℕ × List ℕ} (result, answer.new) (checks table.now literal.now answer.old) }
{
    let checked = table_check::check(table, literal);
    board_words::answers::put_checked(answer, checked)
}

// A state of no bindings, whatever it was.
#[tactic(auto, using(crate::proofs::IntakeSteps::put_whole))]
pub fn empty(state: &mut [u64]) -> u8
    ensures { ◌≡◌ {A = ℕ × List ℕ} (result, state.new) (empties state.old) }
{
    if state.len() != STATE_WORDS {
        return NO_ROOM;
    }
    board_state::put_bindings(state, bindings::empty());
    Which::Done.number()
}

// Brings the value that a table spells into a binding room, under a name that has none.
#[tactic(auto, unfolding(crate::specs::Intake::brings))]
pub fn bring_in(
    state: &mut [u64],
    binding_cells: &mut [u64],
    binding_text: &mut [u8],
    name: usize,
    table: &[u8],
    literal: &[u8],
    answer: &mut [u64],
) -> u8
    ensures { ◌≡◌ {A = (ℕ × List ℕ) × BindingRoom} ((result, answer.new), binding_room state.new binding_cells.new binding_text.new) (brings (binding_room state.old binding_cells.old binding_text.old) name table.now literal.now answer.old) }
{
    if answer.len() < ANSWER_WORDS {
        return NO_ROOM;
    }
    let said = board_state::bringing::bring_in(
        state,
        binding_cells,
        binding_text,
        name,
        table,
        literal,
    );
    board_words::answers::put_checked(answer, said)
}
