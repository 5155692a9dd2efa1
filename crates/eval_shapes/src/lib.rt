// What the evaluator reads off the records of an accepted table.
// Here: which record stands at a place, and which of its operands is begun first. `leaves` evaluates literals and names, `next` says what follows a
// condition or a default, and `comprehensions` what a comprehension sees of its operands' records.
#![tactic(auto)]

pub mod comprehensions;
pub mod leaves;
pub mod next;

ghost use Rattle.std.specs.Prelude.{◌≡◌};
ghost use Rattle.table_check.specs.Records.{Sound, expr_of, unary_of, binary_of};
ghost use Rattle.eval_outcomes.specs.Seen.{unary_seen, binary_seen};
ghost use Rattle.eval_shapes.specs.Shapes.{call_shape, shape_of, first_at};

use crate::next::Fixed;
use eval_outcomes::operators::{Arith, Binary, Comparison, Fold, Function, Unary};
use table_layout::fields::number_at;
use table_layout::kinds::{
    ADD, AND, BINARY, COMPREHENSION, CONDITIONAL, DIVIDE, FUNCTION, GREATER, GREATER_EQUALS,
    HAS_VALUE, IN, INDEX, LESS, LESS_EQUALS, LIST, MAP, MULTIPLY, NEGATE, NOT_EQUALS,
    NOT_STRICTLY_FALSE, OPTIONAL_INDEX, OPTIONAL_OF, OPTIONAL_SELECT, OR, OR_VALUE, REMAINDER,
    SELECT, SIZE, SUBTRACT, UNARY, VALUE,
};
use table_layout::outline::{end_at, first_operand, kind_at};

// No accepted table has other numbers than these; any other number is read as `!`, or as `==`. Functions, and no From<u8>: that would have to stand
// with the operators in eval_outcomes, which knows no numbers of a table.
pub fn unary_of(number: u8) -> Unary
    ensures { unary_seen result ≡ unary_of number }
{
    match number {
        NEGATE => Unary::Negate,
        NOT_STRICTLY_FALSE => Unary::NotStrictlyFalse,
        _ => Unary::Not,
    }
}

pub fn binary_of(number: u8) -> Binary
    ensures { binary_seen result ≡ binary_of number }
{
    match number {
        OR => Binary::Logic(Fold::Or),
        AND => Binary::Logic(Fold::And),
        NOT_EQUALS => Binary::NotEquals,
        INDEX => Binary::Index,
        OPTIONAL_INDEX => Binary::OptionalIndex,
        OPTIONAL_SELECT => Binary::OptionalSelect,
        ADD => Binary::Arithmetic(Arith::Add),
        SUBTRACT => Binary::Arithmetic(Arith::Subtract),
        DIVIDE => Binary::Arithmetic(Arith::Divide),
        MULTIPLY => Binary::Arithmetic(Arith::Multiply),
        REMAINDER => Binary::Arithmetic(Arith::Remainder),
        LESS => Binary::Order(Comparison::Less),
        LESS_EQUALS => Binary::Order(Comparison::LessEquals),
        GREATER => Binary::Order(Comparison::Greater),
        GREATER_EQUALS => Binary::Order(Comparison::GreaterEquals),
        IN => Binary::In,
        _ => Binary::Equals,
    }
}

// ---- which record it is

// How a record is evaluated.
#[derive(Clone, Copy)]
pub enum Shape {
    // A literal or a name.
    Leaf,
    List,
    Map,
    Comprehension,
    // optional.none, the function without operands.
    None,
    Operands(Fixed),
}

// A number that no accepted table has is read as optional.none.
fn call_shape(number: u8) -> Shape
    ensures { result ≡ call_shape number }
{
    match number {
        SIZE => Shape::Operands(Fixed::Call(Function::Size)),
        OPTIONAL_OF => Shape::Operands(Fixed::Call(Function::Of)),
        HAS_VALUE => Shape::Operands(Fixed::Call(Function::HasValue)),
        VALUE => Shape::Operands(Fixed::Call(Function::Value)),
        OR_VALUE => Shape::Operands(Fixed::OrValue),
        _ => Shape::None,
    }
}

// A binary operator is tested for before the match: of the records with operands it is the most frequent.
pub fn shape_at(table: &[u8], literal: &[u8], at: usize) -> Shape
    requires { Sound table.now literal.now at }
    ensures { result ≡ shape_of (expr_of table.now literal.now at) }
{
    let kind = kind_at(table, at);
    if kind == BINARY {
        return Shape::Operands(Fixed::Binary(binary_of(number_at(table, at))));
    }
    match kind {
        UNARY => Shape::Operands(Fixed::Unary(unary_of(number_at(table, at)))),
        CONDITIONAL => Shape::Operands(Fixed::Conditional),
        SELECT => Shape::Operands(Fixed::Select(number_at(table, at) == 1)),
        LIST => Shape::List,
        MAP => Shape::Map,
        COMPREHENSION => Shape::Comprehension,
        FUNCTION => call_shape(number_at(table, at)),
        _ => Shape::Leaf,
    }
}

// The operand that is begun first: of orValue its second.
pub fn begun_first(table: &[u8], literal: &[u8], at: usize, fixed: Fixed) -> usize
    requires { Sound table.now literal.now at × (shape_of (expr_of table.now literal.now at) ≡ Shape.Operands fixed) }
    ensures { result ≡ first_at table.now at fixed }
{
    match fixed {
        Fixed::OrValue => end_at(table, first_operand(table, at)),
        _ => first_operand(table, at),
    }
}
