//! What stands for a hopeless entry.

use pg_types::LEVEL_MAX;

/// What stands for a hopeless entry in a list of values: one more than the greatest value.
pub const HOPELESS: u8 = LEVEL_MAX + 1;
