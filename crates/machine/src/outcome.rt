// What a record gives: a value, an error with the place of the record whose rule gave it, or the limit that the next charge would pass;
// each with the charges made so far.
use numbers::error::ArithmeticError;
use rooms::value::Value;

// Steps made, cells taken, bytes of text written.
#[derive(Clone, Copy)]
pub struct Used {
    pub steps: usize,
    pub cells: usize,
    pub bytes: usize,
}

#[derive(Clone, Copy)]
pub enum Error {
    UndeclaredReference,
    // UnexpectedType: a Bool is wanted.
    BoolWanted,
    // And UnsupportedBinaryOperator.
    NoOverload,
    FunctionError,
    NoSuchKey,
    // Overflow, DivisionByZero, RemainderByZero.
    Arithmetic(ArithmeticError),
    DuplicateKey,
    IndexOutOfBounds,
    UnsupportedKeyType,
    Unordered,
    // UnexpectedType: something to iterate over is wanted.
    IterableWanted,
}

#[derive(Clone, Copy)]
pub enum Limit {
    Steps,
    Cells,
    Text,
    Nesting,
}

#[derive(Clone, Copy)]
pub enum Outcome {
    Value(Value, Used),
    Error(Error, usize, Used),
    Exhausted(Limit, Used),
}
