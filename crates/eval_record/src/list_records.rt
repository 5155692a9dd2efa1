// The elements of a List record.
ghost use Rattle.std.specs.Prelude.{◌≡◌, ◌+◌, get_or};
ghost use Rattle.meaning.specs.Kinds.{list_kind};
ghost use Rattle.table_layout.specs.Layout.{word_at};
ghost use Rattle.table_check.specs.Records.{Sound, elements_of, kind_byte};
ghost use Rattle.machine.specs.Machine.{elements};
ghost use Rattle.eval_outcomes.specs.Gives.{Gives};

use crate::operands::part;
use eval_containers::elements::add_element;
use eval_containers::{Begun, Container, Ready, whole_of};
use eval_shapes::leaves::{is_marked, unmarked};
use machine::outcome::Outcome;
use rooms::memory::Lent;
use rooms::scope::Scope;
use table_layout::outline::{end_at, first_operand};

// The elements of a List record, into the cells that were taken for them.
#[cycle(records)]
pub fn list_parts(
    table: &[u8],
    lent: &mut Lent,
    limit: usize,
    at: usize,
    scope: Scope,
    begun: Begun,
) -> Outcome
    requires { Sound table.now lent.old.literal.now at × (get_or table.now at 0 ≡ kind_byte list_kind) × (begun.parts ≡ word_at table.now (at + 3)) }
    ensures { Gives result lent.old lent.new (λ r. elements table.now limit (elements_of table.now lent.old.literal.now begun.parts (at + 5)) scope begun.first 0 0 begun.used r) }
{
    let mut place = first_operand(table, at);
    let mut left = begun.parts as usize;
    let mut spent = begun.used;
    let mut ready = Ready { count: 0, deep: 0 };
    while 0 < left {
        let marked = is_marked(table, place);
        let element = unmarked(table, lent.literal, place);
        let outcome = part(table, lent, limit, element, &scope, spent);
        let Outcome::Value(v, more) = outcome else {
            return outcome;
        };
        ready = add_element(lent, begun.first, ready, marked, v);
        spent = more;
        place = end_at(table, place);
        left -= 1;
    }
    whole_of(Container::List, begun.first, ready, spent)
}
