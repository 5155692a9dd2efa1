// Which command a line's first word is.

#[derive(Clone, Copy, PartialEq, Eq)]
pub enum Command {
    Room,
    Bind,
    Empty,
    Eval,
}

pub fn command_of(word: &[u8]) -> Option<Command> {
    match word {
        b"room" => Some(Command::Room),
        b"bind" => Some(Command::Bind),
        b"empty" => Some(Command::Empty),
        b"eval" => Some(Command::Eval),
        _ => None,
    }
}
