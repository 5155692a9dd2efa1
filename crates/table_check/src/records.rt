// Records one inside another: each is tested in the order of the refusals' numbers, then its operands are read.
ghost use Rattle.std.specs.Prelude.{◌≡◌, ◌≤◌, length};
ghost use Rattle.table_check.specs.Reading.{read_of, operands_of};

use crate::faults::{Marks, fault, marks_of, may_mark};
use crate::heads::head_at;
use meaning::refusal::{Reason, Refusal};

// Where the record at `at` ends, inside a parent that ends at `end`, with `levels` levels of nesting left.
#[cycle(operands_at_record_at)]
pub(crate) fn record_at(
    table: &[u8],
    text: &[u8],
    at: usize,
    end: usize,
    levels: usize,
    marked: bool,
) -> Result<usize, Refusal>
    requires { end ≤ length table.now }
    ensures { result ≡ read_of table.now text.now levels marked at end }
{
    let head = head_at(table, at, end)?;
    fault(table, text, at, head.kind, levels, marked)?;
    if head.count == 0 {
        return Ok(head.after);
    }
    operands_at(
        table,
        text,
        at,
        marks_of(head.kind),
        head.count,
        head.first,
        head.after,
        levels - 1,
    )
}

// `count` operands from `first` on, which have to end where their record ends.
#[cycle(operands_at_record_at)]
fn operands_at(
    table: &[u8],
    text: &[u8],
    place: usize,
    marks: Marks,
    count: usize,
    first: usize,
    end: usize,
    levels: usize,
) -> Result<usize, Refusal>
    requires { end ≤ length table.now }
    ensures { result ≡ operands_of (read_of table.now text.now levels) place marks end count first }
{
    let mut at = first;
    for read in 0..count {
        at = record_at(table, text, at, end, levels, may_mark(marks, count - read))?;
    }
    if at == end {
        Ok(at)
    } else {
        Err(Reason::WrongExtent.at(place))
    }
}
