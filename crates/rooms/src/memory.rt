// The memory of a run, as one value: a view of it, that can be read, and what is lent to a run, whose cells and text it writes. What a run never
// writes is apart in `Inputs`.
ghost use Rattle.std.specs.Prelude.{◌≡◌, ℕ, List};
ghost use Rattle.rooms.specs.Rooms.{with_words, with_text};
ghost use Rattle.rooms.specs.Memory.{rooms_seen, rooms_lent, rooms_with};

#[derive(Clone, Copy)]
pub struct View<'a> {
    // The literal text of a table.
    pub literal: &'a [u8],
    // Of the bindings.
    pub binding_cells: &'a [u64],
    pub binding_text: &'a [u8],
    // Of the evaluation.
    pub cells: &'a [u64],
    pub text: &'a [u8],
}

#[derive(Drop)]
pub struct Lent<'a> {
    pub literal: &'a [u8],
    pub binding_cells: &'a [u64],
    pub binding_text: &'a [u8],
    // The evaluation writes these two.
    pub cells: &'a mut [u64],
    pub text: &'a mut [u8],
}

impl<'a> Lent<'a> {
    pub fn view(&self) -> View<'_>
        ensures { rooms_seen result ≡ rooms_lent self.now }
    {
        View {
            literal: self.literal,
            binding_cells: self.binding_cells,
            binding_text: self.binding_text,
            cells: &*self.cells,
            text: &*self.text,
        }
    }

    pub fn inputs(&self) -> Inputs<'a>
        ensures { (w t : List ℕ) → rooms_with result w t ≡ with_text (with_words (rooms_lent self.now) w) t }
    {
        Inputs {
            literal: self.literal,
            binding_cells: self.binding_cells,
            binding_text: self.binding_text,
        }
    }
}

// What no run writes. A function that writes cells alone takes this, the cells, and the text shared, for it needs no text of its own.
#[derive(Clone, Copy)]
pub struct Inputs<'a> {
    pub literal: &'a [u8],
    pub binding_cells: &'a [u64],
    pub binding_text: &'a [u8],
}

impl<'b> Inputs<'b> {
    pub fn view<'a>(&self, cells: &'a [u64], text: &'a [u8]) -> View<'a>
    where
        'b: 'a,
        ensures { rooms_seen result ≡ rooms_with self.now cells.now text.now }
    {
        View {
            literal: self.literal,
            binding_cells: self.binding_cells,
            binding_text: self.binding_text,
            cells,
            text,
        }
    }
}
