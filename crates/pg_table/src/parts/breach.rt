//! What a file breaks that is no packed table.

/// The first rule of packed tables that a file breaks.
#[derive(Clone, Copy, Debug, PartialEq, Eq)]
pub enum Breach {
    /// It is not empty.
    Empty,
    /// It begins with the signature.
    Signature,
    /// It has a whole head.
    Head,
    /// It has the length that its head says, which is this one.
    Length(usize),
    /// It has no more bytes than a table may have.
    TooLong,
    /// Its greatest sign, this one, is in range and below the number of cells, this one.
    Signs(u32, u32),
    /// The cell with this number may stand at its place.
    Cell(u32, CellRule),
    /// The record with this number, counted from 0, may stand at its place.
    Record(u32, RecordRule),
}

/// A rule on the cells of a packed table.
#[derive(Clone, Copy, Debug, PartialEq, Eq)]
pub enum CellRule {
    /// The sign of a cell at the root is its own number.
    OwnSign,
    /// A cell with no sign is all 0.
    Unused,
    /// A sign is at most the greatest one.
    Sign,
    /// A cell leads to a family that begins at a cell, or to none.
    Child,
    /// A cell leads to a record, or to none.
    Head,
}

/// A rule on the records of a packed table.
#[derive(Clone, Copy, Debug, PartialEq, Eq)]
pub enum RecordRule {
    /// A value is at least 1, and no greater than a level.
    Value,
    /// A dot is no greater than a pattern is long.
    Dot,
    /// A record leads to an earlier one, or to none.
    Back,
}
