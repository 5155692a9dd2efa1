// The kinds of records, in the order of their numbers, which begin at 0.
ghost use Rattle.std.specs.Prelude.{◌≡◌, ◌<◌};
ghost use Rattle.table_layout.specs.Layout.{kind_numbers};
ghost use Rattle.table_layout.specs.Kinds.{byte_of, kind_of, Known};

use meaning::refusal::Reason;

// Kinds are the numbers below this one.
const KINDS: u8 = 17;

#[derive(Clone, Copy, Debug, PartialEq, Eq)]
pub enum Kind {
    Null,
    Bool,
    Int,
    Uint,
    Double,
    String,
    Bytes,
    Name,
    Unary,
    Binary,
    Conditional,
    Select,
    List,
    Map,
    Mark,
    Comprehension,
    Function,
}

// The kind of a number that is one's.
pub(crate) fn known(number: u8) -> Kind
    requires { number < kind_numbers }
    ensures { (result ≡ kind_of number) × (byte_of result ≡ number) }
{
    match number {
        0 => Kind::Null,
        1 => Kind::Bool,
        2 => Kind::Int,
        3 => Kind::Uint,
        4 => Kind::Double,
        5 => Kind::String,
        6 => Kind::Bytes,
        7 => Kind::Name,
        8 => Kind::Unary,
        9 => Kind::Binary,
        10 => Kind::Conditional,
        11 => Kind::Select,
        12 => Kind::List,
        13 => Kind::Map,
        14 => Kind::Mark,
        15 => Kind::Comprehension,
        _ => Kind::Function,
    }
}

impl TryFrom<u8> for Kind {
    type Error = Reason;

    ghost try_from_gives = { Known };

    fn try_from(number: u8) -> Result<Kind, Reason> {
        if number < KINDS {
            Ok(known(number))
        } else {
            Err(Reason::UnknownKind)
        }
    }
}
