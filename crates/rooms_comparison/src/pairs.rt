// What comparing two values comes to: a type alone. What equality is, with its count of pairs, is in specs/Equality.

// What comparing came to, with the pairs counted so far: equal, not equal, or the next pair would pass the limit.
#[derive(Clone, Copy)]
pub enum Pairs {
    Same(usize),
    Unlike(usize),
    Out(usize),
}
