// The operators and functions of records with operands.
#[derive(Clone, Copy)]
pub enum Unary {
    Not,
    Negate,
    NotStrictlyFalse,
}

#[derive(Clone, Copy)]
pub enum Fold {
    And,
    Or,
}

#[derive(Clone, Copy)]
pub enum Arith {
    Add,
    Subtract,
    Divide,
    Multiply,
    Remainder,
}

#[derive(Clone, Copy)]
pub enum Comparison {
    Less,
    LessEquals,
    Greater,
    GreaterEquals,
}

#[derive(Clone, Copy)]
pub enum Binary {
    Logic(Fold),
    Equals,
    NotEquals,
    Index,
    OptionalIndex,
    OptionalSelect,
    Arithmetic(Arith),
    Order(Comparison),
    In,
}

// The functions of one operand.
#[derive(Clone, Copy)]
pub enum Function {
    Size,
    Of,
    HasValue,
    Value,
}
