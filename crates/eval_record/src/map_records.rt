// The entries of a Map record.
ghost use Rattle.std.specs.Prelude.{◌≡◌, ◌<◌, ◌+◌, get_or};
ghost use Rattle.meaning.specs.Kinds.{map_kind};
ghost use Rattle.table_layout.specs.Layout.{word_at};
ghost use Rattle.table_check.specs.Records.{Sound, kind_byte, pairs_of};
ghost use Rattle.machine.specs.Views.{part_in};
ghost use Rattle.machine.specs.Machine.{entries};
ghost use Rattle.eval_outcomes.specs.Gives.{Gives};
ghost use Rattle.eval_containers.specs.Filling.{entered_of};

use crate::operands::part;
use eval_containers::entries::{Entered, add_entry};
use eval_containers::{Begun, Container, Ready, key_of, whole_of};
use eval_shapes::leaves::{is_marked, unmarked};
use machine::outcome::{Outcome, Used};
use rooms::memory::Lent;
use rooms::scope::Scope;
use rooms::value::Value;
use table_layout::outline::{end_at, first_operand};

// An entry writes cells alone, and is lent them apart.
fn enter(
    lent: &mut Lent,
    limit: usize,
    first: u16,
    ready: Ready,
    key: Value,
    marked: bool,
    v: Value,
    at: usize,
    used: Used,
) -> Result<Entered, Outcome>
    requires { ready.count < 65536 }
    ensures { Gives result lent.old lent.new (λ r. entered_of limit at first ready key (part_in r marked v) used r) }
{
    let inputs = lent.inputs();
    let text = &mut *lent.text;
    add_entry(
        &inputs, lent.cells, text, limit, first, ready, key, marked, v, at, used,
    )
}

// The entries of a Map record, into the cells that were taken for them: key, value, key, value.
#[cycle(records)]
pub fn map_parts(
    table: &[u8],
    lent: &mut Lent,
    limit: usize,
    at: usize,
    scope: Scope,
    begun: Begun,
) -> Outcome
    requires { Sound table.now lent.old.literal.now at × (get_or table.now at 0 ≡ kind_byte map_kind) × (begun.parts ≡ word_at table.now (at + 3)) }
    ensures { Gives result lent.old lent.new (λ r. entries table.now limit at (pairs_of table.now lent.old.literal.now begun.parts (at + 5)) scope begun.first 0 0 begun.used r) }
{
    let mut place = first_operand(table, at);
    let mut left = begun.parts as usize;
    let mut spent = begun.used;
    let mut ready = Ready { count: 0, deep: 0 };
    while 0 < left {
        let one = part(table, lent, limit, place, &scope, spent);
        let key = match key_of(one, at) {
            Ok(key) => key,
            Err(outcome) => return outcome,
        };
        let second = end_at(table, place);
        let marked = is_marked(table, second);
        let element = unmarked(table, lent.literal, second);
        let two = part(table, lent, limit, element, &scope, key.used);
        let Outcome::Value(v, more) = two else {
            return two;
        };
        let entered = match enter(
            lent,
            limit,
            begun.first,
            ready,
            key.value,
            marked,
            v,
            at,
            more,
        ) {
            Ok(entered) => entered,
            Err(outcome) => return outcome,
        };
        ready = entered.ready;
        spent = entered.used;
        place = end_at(table, second);
        left -= 1;
    }
    whole_of(Container::Map, begun.first, ready, spent)
}
