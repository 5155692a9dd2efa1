// What a comprehension sees of its operands' records: their places, a fold, and the append path.
ghost use Rattle.std.specs.Prelude.{◌≡◌, ℕ, ◌+◌, get_or};
ghost use Rattle.meaning.specs.Kinds.{comprehension_kind, conditional_kind};
ghost use Rattle.meaning.specs.Look.{of_name, named};
ghost use Rattle.meaning.specs.Meaning.{look};
ghost use Rattle.table_layout.specs.Layout.{after};
ghost use Rattle.table_check.specs.Records.{Sound, expr_of, kind_byte, binary_of};
ghost use Rattle.machine.specs.Machine.{append_sum, append_step};
ghost use Rattle.eval_comprehension.specs.Steps.{folds_seen};
ghost use Rattle.eval_shapes.specs.Comprehensions.{places_at, fold_in, path_of, path_seen, PathIn, items_seen, ItemsIn};

use eval_comprehension::ranges::is_empty_list;
use eval_outcomes::operators::Fold;
use rooms::value::Value;
use table_layout::fields::{number_at, second_at};
use table_layout::kinds::{ADD, AND, BINARY, CONDITIONAL, LIST, NAME, OR};
use table_layout::outline::{end_at, first_operand, kind_at};

// The names and the operands of a comprehension that its loop needs.
#[derive(Clone, Copy)]
pub struct Places {
    pub accumulator: usize,
    pub item: usize,
    pub condition: usize,
    pub step: usize,
    pub result: usize,
}

pub fn places_at(table: &[u8], literal: &[u8], at: usize, init: usize) -> Places
    requires { Sound table.now literal.now at × (get_or table.now at 0 ≡ kind_byte comprehension_kind) × (init ≡ after table.now (at + 5)) }
    ensures { result ≡ places_at table.now at }
{
    let condition = end_at(table, init);
    let step = end_at(table, condition);
    Places {
        accumulator: number_at(table, at) as usize,
        item: second_at(table, at) as usize,
        condition,
        step,
        result: end_at(table, step),
    }
}

// ---- pending errors

fn is_name(table: &[u8], literal: &[u8], at: usize, name: usize) -> bool
    requires { Sound table.now literal.now at }
    ensures { result ≡ named name (look (expr_of table.now literal.now at)).is_name }
{
    if kind_at(table, at) != NAME {
        return false;
    }
    (number_at(table, at) as usize) == name
}

fn fold_of(number: u8) -> Option<Fold>
    ensures { folds_seen result ≡ fold_in (binary_of number) }
{
    match number {
        OR => Some(Fold::Or),
        AND => Some(Fold::And),
        _ => None,
    }
}

pub fn folds_at(table: &[u8], literal: &[u8], step: usize, accumulator: usize) -> Option<Fold>
    requires { Sound table.now literal.now step }
    ensures { folds_seen result ≡ of_name accumulator (look (expr_of table.now literal.now step)).folds }
{
    if kind_at(table, step) != BINARY {
        return None;
    }
    if is_name(table, literal, first_operand(table, step), accumulator) {
        fold_of(number_at(table, step))
    } else {
        None
    }
}

// ---- the append path

// Where the items list stands, and the guard, if there is one.
#[derive(Clone, Copy)]
pub struct Appending {
    pub guard: Option<usize>,
    pub list: usize,
}

// Of `accumulator + [..]`, where the List record stands.
fn items_of(table: &[u8], literal: &[u8], at: usize, accumulator: usize) -> Option<usize>
    requires { Sound table.now literal.now at }
    ensures { ((limit : ℕ) → items_seen table.now literal.now limit result ≡ append_sum table.now limit accumulator (expr_of table.now literal.now at)) × ItemsIn table.now literal.now at result }
{
    if kind_at(table, at) != BINARY {
        return None;
    }
    if number_at(table, at) != ADD {
        return None;
    }
    let first = first_operand(table, at);
    if !is_name(table, literal, first, accumulator) {
        return None;
    }
    let second = end_at(table, first);
    if kind_at(table, second) == LIST {
        Some(second)
    } else {
        None
    }
}

// `guard ? accumulator + [..] : accumulator`.
fn guarded_step(table: &[u8], literal: &[u8], step: usize, accumulator: usize) -> Option<Appending>
    requires { Sound table.now literal.now step × (get_or table.now step 0 ≡ kind_byte conditional_kind) }
    ensures { ((limit : ℕ) → path_seen table.now literal.now limit result ≡ append_step table.now limit accumulator (expr_of table.now literal.now step)) × PathIn table.now literal.now step result }
{
    let guard = first_operand(table, step);
    let then = end_at(table, guard);
    if !is_name(table, literal, end_at(table, then), accumulator) {
        return None;
    }
    let list = items_of(table, literal, then, accumulator)?;
    Some(Appending {
        guard: Some(guard),
        list,
    })
}

fn append_step(table: &[u8], literal: &[u8], step: usize, accumulator: usize) -> Option<Appending>
    requires { Sound table.now literal.now step }
    ensures { ((limit : ℕ) → path_seen table.now literal.now limit result ≡ append_step table.now limit accumulator (expr_of table.now literal.now step)) × PathIn table.now literal.now step result }
{
    if kind_at(table, step) == CONDITIONAL {
        return guarded_step(table, literal, step, accumulator);
    }
    let list = items_of(table, literal, step, accumulator)?;
    Some(Appending { guard: None, list })
}

fn is_literal(table: &[u8], literal: &[u8], at: usize) -> bool
    requires { Sound table.now literal.now at }
    ensures { result ≡ (look (expr_of table.now literal.now at)).is_literal }
{
    kind_at(table, at) < NAME
}

// From an empty list, with a literal for a condition and the accumulator for a result.
pub fn append_path(table: &[u8], literal: &[u8], places: Places, start: Value) -> Option<Appending>
    requires { Sound table.now literal.now places.condition × Sound table.now literal.now places.step × Sound table.now literal.now places.result }
    ensures { ((limit : ℕ) → path_seen table.now literal.now limit result ≡ path_of table.now literal.now limit places start) × PathIn table.now literal.now places.step result }
{
    if !is_empty_list(start) {
        return None;
    }
    if !is_literal(table, literal, places.condition) {
        return None;
    }
    let accumulator = places.accumulator;
    if !is_name(table, literal, places.result, accumulator) {
        return None;
    }
    append_step(table, literal, places.step, accumulator)
}
