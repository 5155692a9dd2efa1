// Why a table or a binding is refused: the first reason that is met, and the place at fault.
ghost use Rattle.std.specs.Prelude.{◌≡◌};
ghost use Rattle.meaning.specs.Errors.{refusal_number, refusal_at};

// The first seven are in the order in which a record is tested. The last four are for binding rooms and bindings alone.
#[derive(Clone, Copy, Debug, PartialEq, Eq)]
pub enum Reason {
    TableLength,
    UnknownKind,
    // A record or its extent is cut, leaves its parent, or is not the sum of its parts.
    WrongExtent,
    RecordNesting,
    // A field's number, a flag, a name or a span of text; also the name of a binding.
    WrongField,
    MisplacedMark,
    BytesAfterRoot,
    // A binding room that no bindings make, or a new binding that would make such a room.
    UnsoundBinding,
    NotALiteral,
    BindingRoomFull,
    NameBound,
}

#[derive(Clone, Copy, Debug, PartialEq, Eq)]
pub struct Refusal {
    pub reason: Reason,
    pub place: usize,
}

impl Reason {
    // The reason's number in an answer.
    pub fn number(self) -> u8
        ensures { result ≡ refusal_number self }
    {
        match self {
            Reason::TableLength => 1,
            Reason::UnknownKind => 2,
            Reason::WrongExtent => 3,
            Reason::RecordNesting => 4,
            Reason::WrongField => 5,
            Reason::MisplacedMark => 6,
            Reason::BytesAfterRoot => 7,
            Reason::UnsoundBinding => 8,
            Reason::NotALiteral => 9,
            Reason::BindingRoomFull => 10,
            Reason::NameBound => 11,
        }
    }

    // With the place at fault.
    pub fn at(self, place: usize) -> Refusal
        ensures { result ≡ refusal_at self place }
    {
        Refusal {
            reason: self,
            place,
        }
    }
}
