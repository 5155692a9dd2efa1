// Marks, which may not stand everywhere, and the first fault of a record whose head is whole, in the order of the refusals' numbers.
ghost use Rattle.std.specs.Prelude.{◌≡◌, ◌+◌, ◌≤◌, length};
ghost use Rattle.table_layout.specs.Layout.{row_of, head_bytes};
ghost use Rattle.table_layout.specs.Kinds.{byte_of};
ghost use Rattle.table_check.specs.Shapes.{numbers_of};
ghost use Rattle.table_check.specs.Faults.{marks_of, may_mark, misplaced_of, fault_of};

use crate::field_tests::fields_fit;
use meaning::refusal::{Reason, Refusal};
use table_layout::kind::Kind;

// Which of a record's operands may be marked.
#[derive(Clone, Copy)]
pub enum Marks {
    Nowhere,
    // Each of a list.
    Anywhere,
    // The values of a map: the second of each pair.
    Values,
}

#[tactic(auto, unfolding(crate::specs::Faults::marks_of, table_layout::specs::Layout::row_of, meaning::specs::Kinds::kinds))]
pub fn marks_of(kind: Kind) -> Marks
    ensures { result ≡ marks_of (row_of (byte_of kind)).kind }
{
    match kind {
        Kind::List => Marks::Anywhere,
        Kind::Map => Marks::Values,
        _ => Marks::Nowhere,
    }
}

// Whether the next operand may be marked, where `left` operands are left.
pub fn may_mark(marks: Marks, left: usize) -> bool
    ensures { result ≡ may_mark marks left }
{
    match marks {
        Marks::Nowhere => false,
        Marks::Anywhere => true,
        Marks::Values => left % 2 == 1,
    }
}

// Whether a record is a mark where none may stand.
#[tactic(auto, unfolding(table_layout::specs::Layout::row_of, meaning::specs::Kinds::kinds))]
fn misplaced(kind: Kind, marked: bool) -> bool
    ensures { result ≡ misplaced_of (row_of (byte_of kind)).kind marked }
{
    kind == Kind::Mark && !marked
}

// The first fault of a record whose head is whole, in the order of the numbers.
pub fn fault(
    table: &[u8],
    text: &[u8],
    at: usize,
    kind: Kind,
    levels: usize,
    marked: bool,
) -> Result<(), Refusal>
    requires { at + head_bytes (byte_of kind) ≤ length table.now }
    ensures { result ≡ fault_of text.now at (row_of (byte_of kind)).kind (numbers_of table.now at (byte_of kind)) levels marked }
{
    if levels == 0 {
        return Err(Reason::RecordNesting.at(at));
    }
    if !fields_fit(table, text, at, kind) {
        return Err(Reason::WrongField.at(at));
    }
    if misplaced(kind, marked) {
        return Err(Reason::MisplacedMark.at(at));
    }
    Ok(())
}
