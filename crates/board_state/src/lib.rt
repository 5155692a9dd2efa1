// Bindings as words that a caller holds, a state: a slot for each of the 128 names, as a cell; then how many cells and bytes of the binding room
// are used; and how many slots there are, by which a state is known. Words of any other shape stand for bindings that no room is sound with.
// Here: a state is read and written. `bringing` brings a binding in over one.
#![tactic(auto)]

pub mod bringing;

ghost use Rattle.std.specs.Prelude.{◌≡◌, ◌≤◌, ◌++◌, length, drop};
ghost use Rattle.board_state.specs.State.{cells_at, says_absent, slot_in, scope_in, no_bindings, bindings_in, slot_words, state_put};

use bindings_sound::Bindings;
use bindings_sound::values::is_absent;
use rooms::scope::{NAMES, Scope, Slot};
use rooms::value::Value;
use rooms_cells::{read_cell, write_cell};

pub const STATE_WORDS: usize = 259;

// Behind the slots.
const CELLS_AT: usize = 256;

const BYTES_AT: usize = 257;

const SLOTS_AT: usize = 258;

// How many slots a state has.
const SLOTS: u64 = 128;

// The head of a slot that is absent.
const ABSENT: u64 = 16;

fn says_absent(words: &[u64], name: usize) -> bool
    ensures { result ≡ says_absent words.now name }
{
    if name < words.len() / 2 {
        if words[name * 2] == ABSENT {
            return words[name * 2 + 1] == 0;
        }
    }
    false
}

// What a slot's words hold.
// Words that are no value, and do not say that it is absent, are an Optional, which no binding gives a name.
fn slot_in(words: &[u64], name: usize) -> Value
    ensures { result ≡ slot_in words.now name }
{
    if says_absent(words, name) {
        return Value::Absent;
    }
    let value = read_cell(words, name);
    if is_absent(value) {
        Value::OptionalNone
    } else {
        value
    }
}

// The scope begins with each slot absent, and most stay so: those are not stored again.
fn scope_in(words: &[u64]) -> Scope
    ensures { result ≡ scope_in words.now }
{
    let mut scope = Scope::empty();
    for name in 0..NAMES {
        if !says_absent(words, name) {
            scope.slots[name] = Slot {
                value: slot_in(words, name),
            };
        }
    }
    scope
}

// What words stand for that are no state.
fn no_bindings() -> Bindings
    ensures { result ≡ no_bindings }
{
    Bindings {
        scope: Scope::with(Scope::empty(), 0, Value::OptionalNone),
        cells: 0,
        bytes: 0,
    }
}

// The bindings that words stand for.
pub fn bindings_in(words: &[u64]) -> Bindings
    ensures { result ≡ bindings_in words.now }
{
    if words.len() != STATE_WORDS {
        return no_bindings();
    }
    if words[SLOTS_AT] != SLOTS {
        return no_bindings();
    }
    Bindings {
        scope: scope_in(words),
        cells: words[CELLS_AT] as usize,
        bytes: words[BYTES_AT] as usize,
    }
}

fn put_scope(words: &mut [u64], scope: Scope)
    requires { cells_at ≤ length words.old }
    ensures { words.new ≡ slot_words scope.slots ++ drop cells_at words.old }
{
    for name in 0..NAMES {
        write_cell(words, name, scope.slots[name].value);
    }
}

// Bindings as a state, where the words are as many as one has; otherwise nothing is written.
pub fn put_bindings(words: &mut [u64], bindings: Bindings)
    ensures { words.new ≡ state_put words.old bindings }
{
    if words.len() != STATE_WORDS {
        return;
    }
    let scope = bindings.scope;
    put_scope(words, scope);
    words[CELLS_AT] = bindings.cells as u64;
    words[BYTES_AT] = bindings.bytes as u64;
    words[SLOTS_AT] = SLOTS;
}
