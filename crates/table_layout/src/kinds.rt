// The numbers in tables: the kinds of records, flags and names, operators and functions.

// Kinds are the numbers below this one.
pub const KINDS: u8 = 17;

pub const NULL: u8 = 0;

pub const BOOL: u8 = 1;

pub const INT: u8 = 2;

pub const UINT: u8 = 3;

pub const DOUBLE: u8 = 4;

pub const STRING: u8 = 5;

pub const BYTES: u8 = 6;

pub const NAME: u8 = 7;

pub const UNARY: u8 = 8;

pub const BINARY: u8 = 9;

pub const CONDITIONAL: u8 = 10;

pub const SELECT: u8 = 11;

pub const LIST: u8 = 12;

pub const MAP: u8 = 13;

pub const MARK: u8 = 14;

pub const COMPREHENSION: u8 = 15;

pub const FUNCTION: u8 = 16;

// Flags are the numbers up to this one.
pub const LAST_FLAG: u8 = 1;

// Names are the numbers below this one.
pub const NAMES: u8 = 128;

// The operators of one operand, from 1 on, and how many there are.
pub const NOT: u8 = 1;

pub const NEGATE: u8 = 2;

pub const NOT_STRICTLY_FALSE: u8 = 3;

pub const UNARIES: u8 = 3;

// The operators of two.
pub const OR: u8 = 1;

pub const AND: u8 = 2;

pub const EQUALS: u8 = 3;

pub const NOT_EQUALS: u8 = 4;

pub const INDEX: u8 = 5;

pub const OPTIONAL_INDEX: u8 = 6;

pub const OPTIONAL_SELECT: u8 = 7;

pub const ADD: u8 = 8;

pub const SUBTRACT: u8 = 9;

pub const DIVIDE: u8 = 10;

pub const MULTIPLY: u8 = 11;

pub const REMAINDER: u8 = 12;

pub const LESS: u8 = 13;

pub const LESS_EQUALS: u8 = 14;

pub const GREATER: u8 = 15;

pub const GREATER_EQUALS: u8 = 16;

pub const IN: u8 = 17;

pub const BINARIES: u8 = 17;

// The functions: optional.none has no operand, orValue two, any other one.
pub const SIZE: u8 = 1;

pub const OPTIONAL_OF: u8 = 2;

pub const OPTIONAL_NONE: u8 = 3;

pub const HAS_VALUE: u8 = 4;

pub const VALUE: u8 = 5;

pub const OR_VALUE: u8 = 6;

pub const FUNCTIONS: u8 = 6;
