// What a comprehension iterates over.
use rooms::value::CellSpace;

// The items: their space, the first cell, how many there are, and how many cells lie from one to the next (two for a Map's keys).
#[derive(Clone, Copy)]
pub struct Items {
    pub space: CellSpace,
    pub first: u16,
    pub count: u16,
    pub stride: u16,
}
