//! What can be explained.

use pg_translate::Table;
use pg_types::Refusal;

/// What went wrong, or what is said of a call that went well.
#[derive(Clone, Copy)]
pub enum Wrong<'a> {
    /// The arguments are no command.
    Arguments {
        /// The name by which the program was called.
        program: &'a str,
        /// The arguments behind it.
        arguments: &'a [String],
    },
    /// A file that the call is to write. If something is in the way, that is said.
    Output {
        /// Its name as it was given.
        name: &'a str,
        /// Why writing it will fail; empty where nothing is seen to be in the way.
        obstacle: &'a str,
    },
    /// A file is refused.
    Refused(RefusalCase<'a>),
    /// A file could not be read or written, or a line could not be printed.
    Fault(Fault<'a>),
    /// A line of an audited file is false.
    False(ComparedLine<'a>),
    /// The dictionary has no word.
    NoWord {
        /// Its name.
        dict: &'a str,
    },
    /// No word of the dictionary takes part.
    NoPart {
        /// Its name.
        dict: &'a str,
        /// How many words it has.
        words: usize,
        /// The left minimum of the table.
        left: u8,
        /// The right minimum of the table.
        right: u8,
    },
    /// The first level is not above the values of the starting patterns.
    LowStart {
        /// The name of the pattern file.
        patterns: &'a str,
        /// The greatest value of its patterns.
        largest: u8,
        /// The first level.
        start: u8,
    },
    /// A pattern file was accepted. If lines of it have more behind their first blank, that is
    /// said.
    Behind {
        /// The name of the file.
        patterns: &'a str,
        /// What the file holds.
        bytes: &'a [u8],
    },
}

/// A refused file.
#[derive(Clone, Copy)]
pub struct RefusalCase<'a> {
    /// Its name as it was given.
    pub name: &'a str,
    /// What was read of it. It is empty where `pack` refuses the table that it would write.
    pub bytes: &'a [u8],
    /// Why and where it is refused.
    pub refusal: Refusal,
    /// The table by which it was read, if there is one.
    pub letters: Option<Letters<'a>>,
}

/// A table of letters and the name of its file.
#[derive(Clone, Copy)]
pub struct Letters<'a> {
    /// The name of the translate file.
    pub name: &'a str,
    /// The letters that the file gives.
    pub table: &'a Table,
}

impl Letters<'_> {
    /// Whether the name is that of no file, which means the letters a to z.
    pub(crate) fn is_no_file(&self) -> bool {
        self.name == "/dev/null"
    }
}

/// What is done with a file.
#[derive(Clone, Copy)]
pub enum Deed {
    /// It is read.
    Reading,
    /// It is written.
    Writing,
    /// Lines are put on standard output.
    Printing,
}

/// A read or write that failed.
#[derive(Clone, Copy)]
pub struct Fault<'a> {
    /// What failed.
    pub deed: Deed,
    /// The name of the file as it was given. It does not count where lines could not be printed.
    pub name: &'a str,
    /// The system's own reason; empty where it gave none.
    pub reason: &'a str,
    /// What was done with the same file before in this call.
    pub before: Option<Before<'a>>,
}

/// What was done with a file, and by which name.
#[derive(Clone, Copy)]
pub struct Before<'a> {
    /// What was done.
    pub deed: Deed,
    /// The name of the file.
    pub name: &'a str,
}

/// A line of an audited file beside the line that the inputs give.
#[derive(Clone, Copy)]
pub struct ComparedLine<'a> {
    /// The name of the file as it was given.
    pub name: &'a str,
    /// The number of the line, from 1.
    pub line: usize,
    /// The line that was found, with its LF if it has one; none where the file ends before.
    pub found: Option<&'a [u8]>,
    /// The line that should be there; none where none should.
    pub wanted: Option<&'a [u8]>,
}
