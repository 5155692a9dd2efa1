// What the names stand for: one slot for each of the 128 names, in a struct that is passed by value.
// A fresh scope is the named empty one, whose slots are all absent.
ghost use Rattle.std.specs.Prelude.{◌≡◌};
ghost use Rattle.rooms.specs.Scope.{empty_slots, slot_of, stored};

use crate::value::Value;

pub const NAMES: usize = 128;

// `Value::Absent` where the name has no value: a slot is no larger than a value.
#[derive(Clone, Copy)]
pub struct Slot {
    pub value: Value,
}

impl Slot {
    pub const ABSENT: Slot = Slot {
        value: Value::Absent,
    };
}

#[derive(Clone, Copy)]
pub struct Scope {
    pub slots: [Slot; NAMES],
}

impl Scope {
    pub const EMPTY: Scope = Scope {
        slots: [Slot::ABSENT; NAMES],
    };

    // The scope that every fresh one starts from.
    pub fn empty() -> Scope
        ensures { result ≡ empty_slots }
    {
        Scope::EMPTY
    }

    // The scope with one slot changed; a number that is no name changes none.
    pub fn with(scope: Scope, name: usize, value: Value) -> Scope
        ensures { result ≡ stored scope name value }
    {
        let mut changed = scope;
        if name < NAMES {
            let slot = Slot { value: value };
            changed.slots[name] = slot;
        }
        changed
    }

    // What a name has; a number that is no name has nothing.
    pub fn value_of(scope: Scope, name: usize) -> Value
        ensures { result ≡ slot_of scope name }
    {
        if name < NAMES {
            let slot = scope.slots[name];
            slot.value
        } else {
            Value::Absent
        }
    }
}
