// Bindings brought in over a state, the words that a caller holds beside the cells and the text of a binding room.
ghost use Rattle.std.specs.Prelude.{◌≡◌, Result};
ghost use Rattle.meaning.specs.declared.refusal.Refusal.{Refusal};
ghost use Rattle.board_state.specs.Bringing.{BindingRoom, binding_room, stows};

use meaning::refusal::Refusal;

// Brings the value that a table spells into a binding room, under a name that has none. A refusal changes nothing.
pub fn bring_in(
    state: &mut [u64],
    cells: &mut [u64],
    text: &mut [u8],
    name: usize,
    table: &[u8],
    literal: &[u8],
) -> Result<(), Refusal>
    ensures { ◌≡◌ {A = Result (Unit {0}) Refusal × BindingRoom} (result, binding_room state.new cells.new text.new) (stows (binding_room state.old cells.old text.old) name table.now literal.now) }
{
    let mut bindings = crate::bindings_in(state);
    bindings::bring_in(cells, text, &mut bindings, name, table, literal)?;
    crate::put_bindings(state, bindings);
    Ok(())
}
