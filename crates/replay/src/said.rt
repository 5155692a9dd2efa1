// Why a line is not answered, and what is written of a binding.
use meaning::refusal::Refusal;
use std::io;

// The line is none that the program knows, or a write failed.
#[derive(Drop)]
pub enum Fault {
    Bad,
    Io(io::Error),
}

impl From<io::Error> for Fault {
    fn from(error: io::Error) -> Fault {
        Fault::Io(error)
    }
}

pub fn say_brought(rt: &impl Print, answer: Result<(), Refusal>) -> io::Result<()> {
    match answer {
        Ok(()) => println!(rt; "ok"),
        Err(refusal) => println!(rt; "{} {}", refusal.reason.number(), refusal.place),
    }
}
