//! The signature and the sizes of a packed table file.

/// The bytes that a packed table file begins with.
pub const SIGNATURE: &[u8] = b"PGT1";

/// The most bytes that a packed table file may have, 2^28.
pub const TABLE_MAX: usize = 268_435_456;

/// How many bytes the head has.
pub const HEAD_LEN: usize = 16;

/// How many bytes a cell has.
pub const CELL_LEN: usize = 10;

/// How many bytes a record has.
pub const RECORD_LEN: usize = 6;
