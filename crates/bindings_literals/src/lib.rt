// Tables judged as bindings: whether an accepted table is made of literals, Lists and Maps alone, how deep it nests, whether its keys are keys and
// unlike each other, and how many cells and bytes it takes.
// Here: the walk over the table, record by record. `judgement` joins what the parts come to, `keys` tests the keys of a Map, and `literals` reads
// literals.
#![tactic(auto)]

pub mod judgement;
pub mod keys;
pub mod literals;

ghost use Rattle.std.specs.Prelude.{◌≡◌, [], ◌+◌, ◌-◌, ◌<◌, ◌≤◌, length};
ghost use Rattle.table_layout.specs.Layout.{word_at};
ghost use Rattle.table_check.specs.Records.{SoundPart, part_of, elements_of, pairs_of};
ghost use Rattle.bindings_literals.specs.Literals.{Operands, Entries, row_bytes, entry_bytes};
ghost use Rattle.bindings_literals.specs.Judging.{without_parts, Small, judged_part, judged_elements, judged_pairs};

use crate::judgement::Judged;
use crate::keys::key_fault;
use crate::literals::{literal_at, text_length};
use bindings_sound::values::is_absent;
use rooms::value::Value;
use table_layout::fields::count_at;
use table_layout::kinds::{LIST, MAP};
use table_layout::outline::{end_at, first_operand, kind_at};

fn without_parts(v: Value, at: usize) -> Judged
    ensures { (result ≡ without_parts v at) × (result.bytes < 65536) }
{
    let other = if is_absent(v) { Some(at) } else { None };
    Judged {
        other,
        bytes: text_length(v),
        ..Judged::NOTHING
    }
}

// The record at a place, with all in it.
#[cycle(judge_judge_elements_judge_entries)]
pub fn judge(table: &[u8], literal: &[u8], at: usize) -> Judged
    requires { SoundPart table.now literal.now at × (length table.now ≤ 16384) }
    ensures { (result ≡ judged_part (part_of table.now literal.now at)) × Small result (word_at table.now (at + 1) - 1) }
{
    let kind = kind_at(table, at);
    if kind == LIST {
        let first = first_operand(table, at);
        return judge_elements(table, literal, first, count_at(table, at)).deepened();
    }
    if kind == MAP {
        let first = first_operand(table, at);
        return judge_entries(table, literal, first, count_at(table, at)).deepened();
    }
    without_parts(literal_at(table, at), at)
}

#[cycle(judge_judge_elements_judge_entries)]
fn judge_elements(table: &[u8], literal: &[u8], first: usize, count: usize) -> Judged
    requires { Operands table.now literal.now count first × (first + row_bytes table.now count first ≤ length table.now) × (length table.now ≤ 16384) }
    ensures { (result ≡ judged_elements (elements_of table.now literal.now count first)) × Small result (row_bytes table.now count first) }
{
    let mut sum = Judged::NOTHING;
    let mut at = first;
    for _ in 0..count {
        sum = sum.joined(judge(table, literal, at));
        at = end_at(table, at);
    }
    sum
}

#[cycle(judge_judge_elements_judge_entries)]
fn judge_entries(table: &[u8], literal: &[u8], first: usize, count: usize) -> Judged
    requires { Entries table.now literal.now count first × (first + entry_bytes table.now count first ≤ length table.now) × (length table.now ≤ 16384) }
    ensures { (result ≡ judged_pairs [] (pairs_of table.now literal.now count first)) × Small result (entry_bytes table.now count first) }
{
    let mut sum = Judged::NOTHING;
    let mut at = first;
    for entry in 0..count {
        let value = end_at(table, at);
        let fault = key_fault(table, literal, first, entry, at);
        sum = sum.with_key(fault).joined(judge(table, literal, at));
        sum = sum.joined(judge(table, literal, value));
        at = end_at(table, value);
    }
    sum
}
