//! A record of a list.

/// A value and its dot, put before the list whose head is `next`.
#[derive(Clone, Copy, Debug, PartialEq, Eq, Hash)]
pub struct Record {
    /// The value at the dot.
    pub value: u8,
    /// How many signs of the string stand before the dot.
    pub dot: u8,
    /// The head of the rest of the list, 0 where there is none.
    pub next: u64,
}
