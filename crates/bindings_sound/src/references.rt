// What a cell refers to, judged without going further: its text and cells must be the bindings' and lie below the used counts; the nesting that
// a container states is judged by the nestings that its parts state.
#![tactic(auto, using(crate::proofs::ReferenceSteps::deepest_turn, crate::proofs::ReferenceSteps::deepest_none), unfolding(crate::specs::Fits::span_fits, crate::specs::Fits::string_fits, crate::specs::Fits::row_fits))]

ghost use Rattle.std.specs.Prelude.{◌≡◌, ◌+◌, ◌<◌};
ghost use Rattle.bindings_sound.specs.Fits.{deepest_in, row_fits, span_fits, string_fits};

use crate::room::Room;
use rooms::value::{CellSpace, DEEPEST, TextSpace, nesting_of};
use rooms_cells::read_cell;
use rooms_text::part;

// The deepest nesting that the `count` cells from `first` on state.
fn deepest(cells: &[u64], first: usize, count: usize) -> u8
    requires { first + count < 262144 }
    ensures { result ≡ deepest_in cells.now first count }
{
    let mut most = 0;
    for at in first..first + count {
        most = most.max(nesting_of(read_cell(cells, at)));
    }
    most
}

impl Room<'_> {
    // A container that states `nesting` and refers to `count` cells from `first` on. `least` is the first cell that it may refer to.
    // No container nests 0 deep: that is seen without a look at its cells.
    pub fn row_fits(
        &self,
        least: usize,
        nesting: u8,
        space: CellSpace,
        first: u16,
        count: usize,
    ) -> bool
        requires { count < 131072 }
        ensures { result ≡ row_fits self.now.cells.now self.now.used least nesting space first count }
    {
        let from = first as usize;
        matches!(space, CellSpace::Binding)
            && least <= from
            && from + count <= self.used
            && 0 < nesting
            && nesting <= DEEPEST
            && nesting as usize == deepest(self.cells, from, count) as usize + 1
    }

    // A span of the text.
    pub fn span_fits(&self, space: TextSpace, first: u16, length: u16) -> bool
        ensures { result ≡ span_fits self.now.bytes space first length }
    {
        matches!(space, TextSpace::Binding) && first as usize + length as usize <= self.bytes
    }

    pub fn string_fits(&self, space: TextSpace, first: u16, length: u16) -> bool
        ensures { result ≡ string_fits self.now.text.now self.now.bytes space first length }
    {
        self.span_fits(space, first, length)
            && text::utf8::well_formed(part(self.text, first as usize, length as usize))
    }
}
