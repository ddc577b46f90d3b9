//! The greatest numbers that the arguments of a command may have.

/// The greatest seed of `sample`.
pub const SEED_MAX: u32 = 2_147_483_647;

/// How many words `sample` makes at most.
pub const COUNT_MAX: u32 = 100_000;

/// How many digits a number of `sample` has at most.
pub const SAMPLE_DIGITS: usize = 10;

/// How many digits the number of folds has at most.
pub const FOLDS_DIGITS: usize = 2;

/// How many digits the price of a unit of bad or of missed has at most.
pub const PRICE_DIGITS: usize = 4;
