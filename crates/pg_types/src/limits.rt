//! Signs, weights, and the greatest numbers that the files and a run may have. They stand
//! here since several crates use them. A limit of one rule stands in the crate of that rule.

/// A sign: the edge of a word, or a letter of the table. A sign is at least 1.
pub type Sign = u16;

/// The weight of a position or word, 0 to [`WEIGHT_MAX`].
pub type Weight = u16;

/// The sign of the edge, which stands before the first and after the last letter of a word.
pub const EDGE: Sign = 1;

/// The greatest weight of a position or word.
pub const WEIGHT_MAX: Weight = 9999;

/// The greatest sign that a table can have: the edge and `SIGNS_MAX - 1` letters.
pub const SIGNS_MAX: u16 = 2001;

/// The most bytes that an input file may have, 2^26.
pub const FILE_MAX: usize = 67_108_864;

/// The greatest level, and the greatest value of a pattern.
pub const LEVEL_MAX: u8 = 9;

/// The greatest length of a window, in signs.
pub const LENGTH_MAX: u8 = 15;

/// The greatest good weight, bad weight and threshold of a level.
pub const COST_MAX: u32 = 1_000_000;

/// A number of items that is greater than that of any accepted parameters file.
pub const ITEMS_MAX: u32 = 100;

/// The most letters that a word may have.
pub const WORD_LETTERS_MAX: usize = 100;

/// The most signs that a pattern may have.
pub const PATTERN_SIGNS_MAX: usize = 32;

/// The number that a count gives to a window is below this one.
pub const NUMBERS_END: u32 = u32::MAX;

/// In the pattern trie a family of at most this many signs is placed from base 1 on, and a greater
/// one near the greatest taken cell. The rule is modelled on patgen's first fit, and the number is
/// PatGen's own.
pub const FEW_SIGNS: usize = 4;

/// The search for the base of a greater family begins this far below the greatest taken cell. Where
/// the table has more signs than this, it begins that many below. It never begins below base 1.
pub const FAR_BELOW: usize = 255;

/// The most parameter files that `sweep` takes.
pub const SETS_MAX: usize = 16;

/// How many folds `sweep` makes at least.
pub const FOLDS_MIN: u32 = 2;

/// How many folds `sweep` makes at most.
pub const FOLDS_MAX: u32 = 10;

/// What a unit of bad or of missed costs at most in `sweep`.
pub const PRICE_MAX: u32 = 1_000;
