// A number of any kind.
use crate::double::Double;

#[derive(Clone, Copy)]
pub enum Number {
    Int(i64),
    Uint(u64),
    Double(Double),
}
