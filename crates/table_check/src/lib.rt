// The check of a node table: whether bytes spell an expression, and why and where they do not. What an accepted table spells is said in
// specs/Records.
// Here: the whole table. `records` reads records one inside another, `heads` reads their heads, `field_tests` tests their fields, and `faults` finds
// the first fault of one.
#![tactic(auto)]

pub mod faults;
pub mod field_tests;
pub mod heads;
pub mod records;

ghost use Rattle.std.specs.Prelude.{◌≡◌};
ghost use Rattle.table_check.specs.Check.{check_of};

use meaning::refusal::{Reason, Refusal};

pub const LONGEST_TABLE: usize = 16384;

pub const RECORD_LEVELS: usize = 64;

// No byte of the table is read more than twice: a function's number is read where its operands are counted and where it is tested, every other
// byte at most once. Of the literal text each String and each field name has its own bytes tested once.
pub fn check(table: &[u8], text: &[u8]) -> Result<(), Refusal>
    ensures { result ≡ check_of table.now text.now }
{
    if table.is_empty() || LONGEST_TABLE < table.len() {
        return Err(Reason::TableLength.at(0));
    }
    let end = records::record_at(table, text, 0, table.len(), RECORD_LEVELS, false)?;
    if end == table.len() {
        Ok(())
    } else {
        Err(Reason::BytesAfterRoot.at(end))
    }
}
