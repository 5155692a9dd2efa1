// Whether a binding may be brought in, and if not, the first reason and the place at fault.
ghost use Rattle.std.specs.Prelude.{◌≡◌, ◌+◌, ◌≤◌, leb, length};
ghost use Rattle.table_check.specs.Records.{Sound, expr_of};
ghost use Rattle.bindings.specs.Bringing.{literal_for, accepted, said};

use bindings_sound::Bindings;
use bindings_sound::values::is_absent;
use meaning::refusal::{Reason, Refusal};
use rooms::scope::{NAMES, Scope};
use rooms::value::DEEPEST;
use rooms_taking::{cell_room, text_room};

// Whether so much more fits, of a room of which some is used.
fn has_room(room: usize, used: usize, need: usize) -> bool
    ensures { result ≡ leb (used + need) room }
{
    used <= room && need <= room - used
}

// An accepted table: what it is made of, how deep it nests, its keys, and then the room.
fn judge_table(
    table: &[u8],
    literal: &[u8],
    room_cells: usize,
    room_bytes: usize,
    cells: usize,
    bytes: usize,
) -> Result<(), Refusal>
    requires { Sound table.now literal.now 0 × (length table.now ≤ 16384) }
    ensures { result ≡ said (literal_for room_cells room_bytes cells bytes (expr_of table.now literal.now 0)) }
{
    let judged = bindings_literals::judge(table, literal, 0);
    if let Some(place) = judged.other {
        return Err(Reason::NotALiteral.at(place));
    }
    if (DEEPEST as usize) < judged.nesting {
        return Err(Reason::UnsoundBinding.at(0));
    }
    if let Some(place) = judged.key {
        return Err(Reason::UnsoundBinding.at(place));
    }
    if !has_room(room_cells, cells, judged.cells) {
        return Err(Reason::BindingRoomFull.at(0));
    }
    if !has_room(room_bytes, bytes, judged.bytes) {
        return Err(Reason::BindingRoomFull.at(0));
    }
    Ok(())
}

// Whether a binding may be brought in, in the order of the refusals: the room, the name, the table, what it spells, how much of it.
pub fn judge_all(
    cells: &[u64],
    text: &[u8],
    bindings: Bindings,
    name: usize,
    table: &[u8],
    literal: &[u8],
) -> Result<(), Refusal>
    ensures { result ≡ said (accepted cells.now text.now bindings name table.now literal.now) }
{
    if let Err(place) = bindings_sound::sound(cells, text, bindings) {
        return Err(Reason::UnsoundBinding.at(place));
    }
    if NAMES <= name {
        return Err(Reason::WrongField.at(0));
    }
    if !is_absent(Scope::value_of(bindings.scope, name)) {
        return Err(Reason::NameBound.at(0));
    }
    table_check::check(table, literal)?;
    judge_table(
        table,
        literal,
        cell_room(cells),
        text_room(text),
        bindings.cells,
        bindings.bytes,
    )
}
