//! Why a file is refused, and the error of a reader.
ghost use Rattle.std.specs.Prelude.{◌≡◌};
ghost use Rattle.pg_types.specs.Refusals.{number_and_name};
ghost use Rattle.pg_types.specs.declared.refusals.ReadingError.TheVariants.{Memory, Refused};

use std::alloc::{AllocError, AllocFailed};
use thiserror::Error;

/// Why a file is refused. Each kind has a number and a name, which are printed.
#[derive(Clone, Copy, Debug, PartialEq, Eq)]
pub enum Kind {
    /// A translate file has more than [`FILE_MAX`](crate::FILE_MAX) bytes.
    TranslateTooLong,
    /// A minimum of a translate file's head is no number from 1 to 99, or is missing beside the
    /// other.
    BadMinima,
    /// A mark byte is a digit, TAB, CR or `{`, or equals an earlier one.
    BadMark,
    /// A spelling is too long, or holds or begins with a byte that may not stand there.
    BadSpelling,
    /// A spelling is a proper prefix of another, has another as proper prefix, or belongs to two
    /// letters.
    SpellingClash,
    /// A translate file has a letter too many.
    TooManyLetters,
    /// A number is due in a parameters file, and the item is none.
    BadNumber,
    /// A number of a parameters file is outside its range.
    OutOfRange,
    /// An item of a parameters file is due, and there is none.
    Missing,
    /// An item of a parameters file stands where none may follow.
    Extra,
    /// A parameters file has more than [`FILE_MAX`](crate::FILE_MAX) bytes.
    ParametersTooLong,
    /// A byte begins no item of a pattern line.
    PatternCharacter,
    /// A pattern line has a sign too many.
    PatternTooLong,
    /// A pattern file has more than [`FILE_MAX`](crate::FILE_MAX) bytes.
    PatternsTooLong,
    /// A byte other than `{` begins no item of a dictionary line.
    DictionaryCharacter,
    /// A dictionary line has a letter too many.
    WordTooLong,
    /// A dictionary has more than [`FILE_MAX`](crate::FILE_MAX) bytes.
    DictionaryTooLong,
    /// A `{` begins no item of a dictionary line.
    BadWeight,
    /// A packed table file would have, or has, more than 2^28 bytes.
    TableTooLong,
    /// A packed table file is not well formed.
    BadTable,
    /// A packed table file belongs to a table with another number of letters.
    OtherTable,
}

impl Kind {
    /// The number of the refusal, as it is printed.
    pub fn number(&self) -> u16
        ensures { result ≡ (number_and_name self.now).0 }
    {
        match self {
            Kind::TranslateTooLong => 101,
            Kind::BadMinima => 102,
            Kind::BadMark => 103,
            Kind::BadSpelling => 104,
            Kind::SpellingClash => 105,
            Kind::TooManyLetters => 106,
            Kind::BadNumber => 201,
            Kind::OutOfRange => 202,
            Kind::Missing => 203,
            Kind::Extra => 204,
            Kind::ParametersTooLong => 205,
            Kind::PatternCharacter => 301,
            Kind::PatternTooLong => 302,
            Kind::PatternsTooLong => 303,
            Kind::DictionaryCharacter => 401,
            Kind::WordTooLong => 402,
            Kind::DictionaryTooLong => 403,
            Kind::BadWeight => 404,
            Kind::TableTooLong => 601,
            Kind::BadTable => 602,
            Kind::OtherTable => 603,
        }
    }

    /// The name of the refusal, as it is printed: that of the variant.
    pub fn name(&self) -> &'static str
        ensures { result.now ≡ (number_and_name self.now).1 }
    {
        match self {
            Kind::TranslateTooLong => "TranslateTooLong",
            Kind::BadMinima => "BadMinima",
            Kind::BadMark => "BadMark",
            Kind::BadSpelling => "BadSpelling",
            Kind::SpellingClash => "SpellingClash",
            Kind::TooManyLetters => "TooManyLetters",
            Kind::BadNumber => "BadNumber",
            Kind::OutOfRange => "OutOfRange",
            Kind::Missing => "Missing",
            Kind::Extra => "Extra",
            Kind::ParametersTooLong => "ParametersTooLong",
            Kind::PatternCharacter => "PatternCharacter",
            Kind::PatternTooLong => "PatternTooLong",
            Kind::PatternsTooLong => "PatternsTooLong",
            Kind::DictionaryCharacter => "DictionaryCharacter",
            Kind::WordTooLong => "WordTooLong",
            Kind::DictionaryTooLong => "DictionaryTooLong",
            Kind::BadWeight => "BadWeight",
            Kind::TableTooLong => "TableTooLong",
            Kind::BadTable => "BadTable",
            Kind::OtherTable => "OtherTable",
        }
    }
}

/// Where and why a file is refused. Lines and columns count from 1, and columns count bytes.
///
/// For a parameters file, `line` is the number of the item and `column` is 0. For a file that is
/// too long, and for a packed table file, both are 0.
#[derive(Clone, Copy, Debug, PartialEq, Eq)]
pub struct Refusal {
    /// Why the file is refused.
    pub kind: Kind,
    /// The line, or the item of a parameters file.
    pub line: u32,
    /// The column of the first byte of what is refused.
    pub column: u32,
}

/// Why a reader gave nothing.
#[derive(Debug, Drop, Error)]
pub enum ReadingError {
    /// The file breaks its rules.
    #[error("refused: {} {}", .0.kind.number(), .0.kind.name())]
    Refused(Refusal),
    /// There was not enough memory.
    #[error("out of memory")]
    Memory,
}

impl From<AllocError> for ReadingError {
    ghost from_gives = { λ _ e. e ≡ Memory };

    fn from(_error: AllocError) -> ReadingError {
        ReadingError::Memory
    }
}

impl<T: Drop> From<AllocFailed<T>> for ReadingError {
    ghost from_gives = { λ _ e. e ≡ Memory };

    fn from(_error: AllocFailed<T>) -> ReadingError {
        ReadingError::Memory
    }
}

impl From<Refusal> for ReadingError {
    ghost from_gives = { λ r e. e ≡ Refused r };

    fn from(refusal: Refusal) -> ReadingError {
        ReadingError::Refused(refusal)
    }
}
