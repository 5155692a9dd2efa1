// Records of one operand or two, and the slots that they read where all that stands below them, at most two levels, are literals and names: such
// a record can be evaluated with those slots alone.
ghost use Rattle.std.specs.Prelude.{◌≡◌};
ghost use Rattle.table_check.specs.Records.{Sound, expr_of};
ghost use Rattle.eval_shallow.specs.Slots.{operands_of, call_sides, sides_seen, SoundSides, flat_of, small_of, near_of, beside, PairBelow, QuadBelow};

use eval_shapes::leaves::{is_leaf, slot_at};
use table_layout::fields::number_at;
use table_layout::kinds::{BINARY, FUNCTION, HAS_VALUE, OPTIONAL_OF, SELECT, SIZE, UNARY, VALUE};
use table_layout::outline::{end_at, first_operand, kind_at};

// The places of the operands of an operator, a select or a function of one argument. Three ways: an Option in an Option would not say which None is
// no operand.
#[derive(Clone, Copy)]
pub enum Sides {
    Neither,
    One(usize),
    Two(usize, usize),
}

// What belongs to the first and the second of two literals or names, or of two records of those: their slots, or what is in the slots.
#[derive(Clone, Copy)]
pub struct Pair<T> {
    pub first: T,
    pub second: T,
}

// An arm for each number here and for each kind below: of `SIZE | VALUE` a proof knows only that it is one of the two, and would part them again.
// Of a function, by its number: optional.none and orValue have none and two; no accepted table has another number.
fn call_sides(number: u8, one: usize) -> Sides
    ensures { result ≡ call_sides number one }
{
    match number {
        SIZE => Sides::One(one),
        OPTIONAL_OF => Sides::One(one),
        HAS_VALUE => Sides::One(one),
        VALUE => Sides::One(one),
        _ => Sides::Neither,
    }
}

// By the kind byte: the form that `shape_at` makes has the operator in it, which nobody looks at here.
pub fn sides_at(table: &[u8], literal: &[u8], at: usize) -> Sides
    requires { Sound table.now literal.now at }
    ensures { (sides_seen table.now literal.now result ≡ operands_of (expr_of table.now literal.now at)) × SoundSides table.now literal.now result }
{
    match kind_at(table, at) {
        UNARY => Sides::One(first_operand(table, at)),
        BINARY => {
            let one = first_operand(table, at);
            Sides::Two(one, end_at(table, one))
        }
        SELECT => Sides::One(first_operand(table, at)),
        FUNCTION => call_sides(number_at(table, at), first_operand(table, at)),
        _ => Sides::Neither,
    }
}

// The slots of a record whose operands are all literals and names; 0 for a literal and where there is no second, whose value is not looked at.
pub fn flat_at(table: &[u8], literal: &[u8], at: usize) -> Option<Pair<usize>>
    requires { Sound table.now literal.now at }
    ensures { (result ≡ flat_of (expr_of table.now literal.now at)) × PairBelow result }
{
    match sides_at(table, literal, at) {
        Sides::Neither => None,
        Sides::One(one) => {
            if !is_leaf(table, one) {
                return None;
            }
            Some(Pair {
                first: slot_at(table, literal, one),
                second: 0,
            })
        }
        Sides::Two(one, two) => {
            if !is_leaf(table, one) {
                return None;
            }
            if !is_leaf(table, two) {
                return None;
            }
            let first = slot_at(table, literal, one);
            Some(Pair {
                first,
                second: slot_at(table, literal, two),
            })
        }
    }
}

// Of such a record, or of a literal or a name.
pub fn small_at(table: &[u8], literal: &[u8], at: usize) -> Option<Pair<usize>>
    requires { Sound table.now literal.now at }
    ensures { (result ≡ small_of (expr_of table.now literal.now at)) × PairBelow result }
{
    if is_leaf(table, at) {
        return Some(Pair {
            first: slot_at(table, literal, at),
            second: 0,
        });
    }
    flat_at(table, literal, at)
}

fn both(first: Option<Pair<usize>>, second: Option<Pair<usize>>) -> Option<Pair<Pair<usize>>>
    requires { PairBelow first × PairBelow second }
    ensures { (result ≡ beside first second) × QuadBelow result }
{
    let first = first?;
    let second = second?;
    Some(Pair { first, second })
}

// Of a record whose operands are all of those.
pub fn near_at(table: &[u8], literal: &[u8], at: usize) -> Option<Pair<Pair<usize>>>
    requires { Sound table.now literal.now at }
    ensures { (result ≡ near_of (expr_of table.now literal.now at)) × QuadBelow result }
{
    match sides_at(table, literal, at) {
        Sides::Neither => None,
        Sides::One(one) => both(
            small_at(table, literal, one),
            Some(Pair {
                first: 0,
                second: 0,
            }),
        ),
        Sides::Two(one, two) => {
            let first = small_at(table, literal, one);
            both(first, small_at(table, literal, two))
        }
    }
}
