//! The forms of the commands: what stands behind the name of each. They stand here alone, and what
//! reads, explains or shows arguments goes by them.

use crate::limits::{COUNT_MAX, FOLDS_DIGITS, PRICE_DIGITS, SAMPLE_DIGITS, SEED_MAX};
use pg_types::{FOLDS_MAX, FOLDS_MIN, PRICE_MAX, SETS_MAX};

/// Which command.
#[derive(Clone, Copy)]
pub enum Kind {
    Generate,
    Audit,
    Sample,
    Pack,
    Totals,
    Prune,
    Sweep,
}

/// What an argument has to be.
#[derive(Clone, Copy)]
pub enum Slot {
    /// The name of a file that is read.
    Input,
    /// The name of a file that is written.
    Output,
    /// A number of at most so many digits, from the least to the most.
    Number {
        digits: usize,
        least: u32,
        most: u32,
    },
}

/// How an argument is called, or which option it stands behind, and what it has to be.
pub type Label = (&'static str, Slot);

/// The name of a command, and which it is; the arguments behind it; the options that may follow, each with its file;
/// and, in place of options, how many parameter files follow at most, at least one if any may.
pub type Form = (
    &'static str,
    Kind,
    &'static [Label],
    &'static [Label],
    usize,
);

/// The forms of all commands.
pub const FORMS: &[Form] = &[
    (
        "generate",
        Kind::Generate,
        &[
            ("DICT", Slot::Input),
            ("PATTERNS", Slot::Input),
            ("OUT", Slot::Output),
            ("TRANSLATE", Slot::Input),
            ("PARAMS", Slot::Input),
            ("REPORT", Slot::Output),
        ],
        &[("--pattmp", Slot::Output), ("--cells", Slot::Output)],
        0,
    ),
    (
        "audit",
        Kind::Audit,
        &[
            ("DICT", Slot::Input),
            ("PATTERNS", Slot::Input),
            ("OUT", Slot::Input),
            ("TRANSLATE", Slot::Input),
            ("PARAMS", Slot::Input),
            ("REPORT", Slot::Input),
        ],
        &[("--pattmp", Slot::Input)],
        0,
    ),
    (
        "sample",
        Kind::Sample,
        &[("N", SEED), ("COUNT", COUNT)],
        &[],
        0,
    ),
    (
        "pack",
        Kind::Pack,
        &[
            ("PATTERNS", Slot::Input),
            ("TRANSLATE", Slot::Input),
            ("TABLE", Slot::Output),
        ],
        &[],
        0,
    ),
    (
        "totals",
        Kind::Totals,
        &[
            ("DICT", Slot::Input),
            ("TRANSLATE", Slot::Input),
            ("TABLE", Slot::Input),
        ],
        &[],
        0,
    ),
    (
        "prune",
        Kind::Prune,
        &[
            ("DICT", Slot::Input),
            ("PATTERNS", Slot::Input),
            ("OUT", Slot::Output),
            ("TRANSLATE", Slot::Input),
            ("REPORT", Slot::Output),
        ],
        &[],
        0,
    ),
    (
        "sweep",
        Kind::Sweep,
        &[
            ("DICT", Slot::Input),
            ("PATTERNS", Slot::Input),
            ("OUT", Slot::Output),
            ("TRANSLATE", Slot::Input),
            ("K", FOLDS),
            ("BAD", PRICE),
            ("MISSED", PRICE),
        ],
        &[],
        SETS_MAX,
    ),
];

/// The seed of `sample`.
const SEED: Slot = Slot::Number {
    digits: SAMPLE_DIGITS,
    least: 0,
    most: SEED_MAX,
};

/// How many words `sample` makes.
const COUNT: Slot = Slot::Number {
    digits: SAMPLE_DIGITS,
    least: 0,
    most: COUNT_MAX,
};

/// In how many parts `sweep` cuts its words.
const FOLDS: Slot = Slot::Number {
    digits: FOLDS_DIGITS,
    least: FOLDS_MIN,
    most: FOLDS_MAX,
};

/// What a unit of bad or of missed costs.
const PRICE: Slot = Slot::Number {
    digits: PRICE_DIGITS,
    least: 1,
    most: PRICE_MAX,
};
