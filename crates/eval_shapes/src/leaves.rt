// Literals and names, evaluated where they are asked for, with no scope passed on.
ghost use Rattle.std.specs.Prelude.{◌≡◌, ◌+◌, ◌<◌, ◌≤◌, length, get_or, eqb, ltb};
ghost use Rattle.meaning.specs.Kinds.{name_kind};
ghost use Rattle.meaning.specs.Limits.{names};
ghost use Rattle.table_layout.specs.Layout.{word_at};
ghost use Rattle.table_check.specs.Records.{Sound, SoundPart, expr_of, kind_byte};
ghost use Rattle.machine.specs.Literals.{name_out};
ghost use Rattle.eval_shapes.specs.Leaves.{leaf_kinds, literal_of, slot_in, leaf_out, leaf_step, unmarked_at};
ghost use Rattle.rooms.specs.Spans.{span};

use eval_outcomes::outcomes::{out_of_steps, stepped};
use machine::outcome::{Error, Outcome, Used};
use rooms::scope::Slot;
use rooms::value::{Span, TextSpace, Value};
use table_layout::fields::{number_at, span_at};
use table_layout::kinds::{BOOL, BYTES, DOUBLE, INT, MARK, NAME, STRING, UINT};
use table_layout::number_literals::{bits_at, int_at};
use table_layout::outline::{first_operand, kind_at};

// The kinds below this one have no operands.
pub const LEAF_KINDS: u8 = 8;

// What is kept of a part of the literal text: both numbers are words of the table.
fn literal_span(table: &[u8], at: usize) -> Span
    requires { at + 7 ≤ length table.now }
    ensures { result ≡ span TextSpace.Literal (word_at table.now (at + 3)) (word_at table.now (at + 5)) }
{
    let span = span_at(table, at);
    Span {
        space: TextSpace::Literal,
        first: span.offset as u16,
        length: span.size as u16,
    }
}

// What a literal's record spells. Not the `literal_at` of bindings_literals: that takes any record and gives absent for one that is no literal, and
// here it is known from the table's soundness that the record is one.
fn literal_at(table: &[u8], literal: &[u8], at: usize, kind: u8) -> Value
    requires { Sound table.now literal.now at × (get_or table.now at 0 ≡ kind) × (kind < kind_byte name_kind) }
    ensures { result ≡ literal_of table.now (expr_of table.now literal.now at) }
{
    match kind {
        BOOL => Value::Bool(number_at(table, at) == 1),
        INT => Value::Int(int_at(table, at)),
        UINT => Value::Uint(bits_at(table, at)),
        DOUBLE => rooms::value::double_value(bits_at(table, at)),
        STRING => Value::String(literal_span(table, at)),
        BYTES => Value::Bytes(literal_span(table, at)),
        _ => Value::Null,
    }
}

fn named(v: Value, at: usize, used: Used) -> Outcome
    ensures { result ≡ name_out at v used }
{
    match v {
        Value::Absent => Outcome::Error(Error::UndeclaredReference, at, used),
        _ => Outcome::Value(v, used),
    }
}

pub fn is_leaf(table: &[u8], at: usize) -> bool
    requires { at < length table.now }
    ensures { result ≡ ltb (get_or table.now at 0) leaf_kinds }
{
    kind_at(table, at) < LEAF_KINDS
}

// The slot of a name's record; of any other 0, whose value is not looked at.
pub fn slot_at(table: &[u8], literal: &[u8], at: usize) -> usize
    requires { Sound table.now literal.now at }
    ensures { (result ≡ slot_in (expr_of table.now literal.now at)) × (result < names) }
{
    if kind_at(table, at) == NAME {
        number_at(table, at) as usize
    } else {
        0
    }
}

// Its step is charged already.
pub fn leaf_value(table: &[u8], literal: &[u8], at: usize, slot: Slot, used: Used) -> Outcome
    requires { Sound table.now literal.now at × (get_or table.now at 0 < leaf_kinds) }
    ensures { result ≡ leaf_out table.now (expr_of table.now literal.now at) slot.value used }
{
    let kind = kind_at(table, at);
    if kind == NAME {
        let v = slot.value;
        return named(v, at, used);
    }
    Outcome::Value(literal_at(table, literal, at, kind), used)
}

pub fn leaf(
    table: &[u8],
    literal: &[u8],
    limit: usize,
    at: usize,
    slot: Slot,
    used: Used,
) -> Outcome
    requires { Sound table.now literal.now at × (get_or table.now at 0 < leaf_kinds) }
    ensures { result ≡ leaf_step table.now limit (expr_of table.now literal.now at) slot.value used }
{
    if limit <= used.steps {
        return out_of_steps(used);
    }
    leaf_value(table, literal, at, slot, stepped(used))
}

// ---- marks

pub fn is_marked(table: &[u8], at: usize) -> bool
    requires { at < length table.now }
    ensures { result ≡ eqb (get_or table.now at 0) 14 }
{
    kind_at(table, at) == MARK
}

// The record that a mark stands on; without one, the record itself.
pub fn unmarked(table: &[u8], literal: &[u8], at: usize) -> usize
    requires { SoundPart table.now literal.now at }
    ensures { result ≡ unmarked_at table.now at }
{
    if is_marked(table, at) {
        first_operand(table, at)
    } else {
        at
    }
}
