// A binding room under judgement.

// The lent cells and text, and how much of them is used.
#[derive(Clone, Copy)]
pub struct Room<'a> {
    pub cells: &'a [u64],
    pub text: &'a [u8],
    pub used: usize,
    pub bytes: usize,
}
