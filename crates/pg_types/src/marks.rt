//! The status of a position, and the sums and numbers that a run reports.

/// The status of a position of a word. Each but `Nothing` has a mark byte, which stands for it in a
/// dictionary.
#[derive(Clone, Copy, Debug, PartialEq, Eq)]
pub enum Mark {
    /// No hyphen, and no pattern breaks the word here.
    Nothing,
    /// A pattern breaks the word where it has no hyphen.
    Error,
    /// No pattern breaks the word at this hyphen.
    Missed,
    /// A pattern breaks the word at this hyphen.
    Found,
    /// A disputed position, which counts nowhere.
    DontCare,
}

/// Sums of the weights of the positions in reach, over all words that take part.
#[derive(Clone, Copy, Debug, PartialEq, Eq)]
pub struct Totals {
    /// Over the positions that are found.
    pub good: u64,
    /// Over the positions that are errors.
    pub bad: u64,
    /// Over the positions that are missed.
    pub missed: u64,
}

/// The numbers of a layout of packed cells.
#[derive(Clone, Copy, Debug, PartialEq, Eq)]
pub struct Layout {
    /// How many cells are taken.
    pub taken: u64,
    /// The greatest taken cell.
    pub top: u64,
    /// How many distinct non-empty suffixes the output lists have.
    pub tails: u64,
}
