// Heads of records: the kind, how many operands there are, and whether the extent fits.
ghost use Rattle.std.specs.Prelude.{◌≡◌, ◌+◌, ◌<◌, ◌≤◌, length};
ghost use Rattle.meaning.specs.Kinds.{numbered, functions};
ghost use Rattle.table_layout.specs.Layout.{row_of, head_bytes};
ghost use Rattle.table_layout.specs.Kinds.{byte_of};
ghost use Rattle.table_check.specs.Shapes.{numbers_of, called_count, count_of, fits_extent, head_of};

use meaning::refusal::{Reason, Refusal};
use table_layout::kind::Kind;
use table_layout::kinds::{OPTIONAL_NONE, OR_VALUE};
use table_layout::words::{FIELDS, head_bytes, word_at};

// How many operands a function has. No operand of an unknown one is read.
#[tactic(auto, unfolding(meaning::specs::Kinds::numbered, meaning::specs::Kinds::functions))]
fn function_operands(number: u8) -> usize
    ensures { result ≡ called_count (numbered functions number) }
{
    match number {
        OPTIONAL_NONE => 0,
        OR_VALUE => 2,
        _ => 1,
    }
}

// How many operands the record at a place has.
#[tactic(auto, using(table_layout::proofs::WordLaws::byte_is), unfolding(crate::specs::Shapes::count_of, table_layout::specs::Layout::row_of, meaning::specs::Kinds::kinds, crate::specs::Shapes::numbers_of, meaning::specs::Heads::numbers_at, meaning::specs::Heads::field_bytes, meaning::specs::Heads::fields_bytes, table_layout::specs::Layout::head_bytes, table_layout::specs::Layout::word_at))]
fn operand_count(table: &[u8], at: usize, kind: Kind) -> usize
    requires { at + head_bytes (byte_of kind) ≤ length table.now }
    ensures { result ≡ count_of (row_of (byte_of kind)).kind (numbers_of table.now at (byte_of kind)) }
{
    match kind {
        Kind::Unary | Kind::Select | Kind::Mark => 1,
        Kind::Binary => 2,
        Kind::Conditional => 3,
        Kind::List => word_at(table, at + FIELDS),
        Kind::Map => 2 * word_at(table, at + FIELDS),
        Kind::Comprehension => 5,
        Kind::Function => function_operands(table[at + FIELDS]),
        _ => 0,
    }
}

// Whether an extent is right: exactly the head if the record has no operands, and otherwise at least that.
fn extent_fits(count: usize, head: usize, extent: usize) -> bool
    ensures { result ≡ fits_extent count head extent }
{
    if count == 0 {
        extent == head
    } else {
        head <= extent
    }
}

// What stands before a record's operands.
#[derive(Clone, Copy)]
pub struct Head {
    pub kind: Kind,
    // How many operands it has, where they begin and where it ends.
    pub count: usize,
    pub first: usize,
    pub after: usize,
}

// The head of the record at a place, inside a parent that ends at another: its kind, then its extent.
pub fn head_at(table: &[u8], at: usize, end: usize) -> Result<Head, Refusal>
    requires { end ≤ length table.now }
    ensures { result ≡ head_of table.now at end }
{
    if table.len() <= at {
        return Err(Reason::WrongExtent.at(at));
    }
    let Ok(kind) = Kind::try_from(table[at]) else {
        return Err(Reason::UnknownKind.at(at));
    };
    let head = head_bytes(kind);
    if end < at + head {
        return Err(Reason::WrongExtent.at(at));
    }
    let extent = word_at(table, at + 1);
    if end < at + extent {
        return Err(Reason::WrongExtent.at(at));
    }
    let count = operand_count(table, at, kind);
    if !extent_fits(count, head, extent) {
        return Err(Reason::WrongExtent.at(at));
    }
    Ok(Head {
        kind,
        count,
        first: at + head,
        after: at + extent,
    })
}
