//! The items of dictionary lines and of pattern lines.

use pg_types::{Mark, Sign, Weight};

/// The kind of file in whose lines an item stands.
#[derive(Clone, Copy, Debug, PartialEq, Eq)]
pub enum Place {
    /// A dictionary: letters, digits, weights in braces and marks.
    Dictionary,
    /// A pattern file: letters, digits and the dot of the edge.
    Patterns,
}

/// The first item of a text, with what follows it.
#[derive(Clone, Copy, Debug, PartialEq, Eq)]
pub enum Item<'a> {
    /// The letter with this sign, in one of its spellings.
    Letter(Sign, &'a [u8]),
    /// A digit, 0 to 9.
    Digit(u8, &'a [u8]),
    /// A weight in braces, 1 to [`WEIGHT_MAX`](pg_types::WEIGHT_MAX).
    Weight(Weight, &'a [u8]),
    /// The byte of a mark.
    Mark(Mark, &'a [u8]),
    /// The dot of the edge.
    Edge(&'a [u8]),
    /// The line ends, or a blank or TAB stands here.
    End,
    /// No item stands here.
    Bad,
}
