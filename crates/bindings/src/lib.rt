// Bindings: values that tables of literals spell, kept in a binding room under names.
// Here: a binding is brought in, and a room is emptied. A refusal changes nothing that is lent. `admission` decides whether a binding may be
// brought in, and `laying` lays its value down in the room.
#![tactic(auto)]

pub mod admission;
pub mod laying;

ghost use Rattle.std.specs.Prelude.{◌≡◌};
ghost use Rattle.bindings.specs.Bringing.{Outcome, outcome_of, emptied};

use crate::admission::judge_all;
use crate::laying::Laying;
use bindings_sound::Bindings;
use meaning::refusal::Refusal;
use rooms::scope::Scope;

// Brings in the value that a table spells, under a name that has none.
pub fn bring_in(
    cells: &mut [u64],
    text: &mut [u8],
    bindings: &mut Bindings,
    name: usize,
    table: &[u8],
    literal: &[u8],
) -> Result<(), Refusal>
    ensures { ◌≡◌ {A = Outcome} (record { answer = result; bindings = bindings.new; words = cells.new; text = text.new }) (outcome_of cells.old text.old bindings.old name table.now literal.now) }
{
    judge_all(cells, text, *bindings, name, table, literal)?;
    let mut room = Laying {
        cells,
        text,
        used: bindings.cells,
        bytes: bindings.bytes,
    };
    let value = room.lay(table, literal, 0);
    *bindings = Bindings {
        scope: Scope::with(bindings.scope, name, value),
        cells: room.used,
        bytes: room.bytes,
    };
    Ok(())
}

// A fresh room, and what any room becomes when it is emptied: no name has a value, and all of the lent memory serves again.
pub fn empty() -> Bindings
    ensures { result ≡ emptied }
{
    Bindings {
        scope: Scope::empty(),
        cells: 0,
        bytes: 0,
    }
}
