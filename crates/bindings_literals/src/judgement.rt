// The judgement of an accepted table as a binding: the first records at fault, how deep it nests, and how many cells and bytes it takes.
// Judgements of several records are joined here.
ghost use Rattle.std.specs.Prelude.{◌≡◌, ◌+◌, ◌<◌};
ghost use Rattle.bindings_literals.specs.Judging.{joined_of, with_key, deepened_of};

#[derive(Clone, Copy)]
pub struct Judged {
    // The place of the first record that is no literal, List or Map.
    pub other: Option<usize>,
    // The place of the first key that is of a wrong kind or equal to one before it.
    pub key: Option<usize>,
    pub nesting: usize,
    pub cells: usize,
    pub bytes: usize,
}

impl Judged {
    pub const NOTHING: Judged = Judged {
        other: None,
        key: None,
        nesting: 0,
        cells: 0,
        bytes: 0,
    };

    // One part more: its cell, and its judgement.
    pub fn joined(self, part: Judged) -> Judged
        requires { (self.cells + part.cells < 4294967296) × (self.bytes + part.bytes < 4294967296) }
        ensures { result ≡ joined_of self part }
    {
        Judged {
            other: self.other.or(part.other),
            key: self.key.or(part.key),
            nesting: self.nesting.max(part.nesting),
            cells: self.cells + part.cells + 1,
            bytes: self.bytes + part.bytes,
        }
    }

    pub fn with_key(self, fault: Option<usize>) -> Judged
        ensures { result ≡ with_key self fault }
    {
        Judged {
            key: self.key.or(fault),
            ..self
        }
    }

    // The container of these parts.
    pub fn deepened(self) -> Judged
        requires { self.nesting < 4294967296 }
        ensures { result ≡ deepened_of self }
    {
        Judged {
            nesting: self.nesting + 1,
            ..self
        }
    }
}
