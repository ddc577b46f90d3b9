//! The keywords with which lines and pieces begin.

/// What a line says, or what a piece is made of.
#[derive(Clone, Copy, PartialEq, Eq)]
pub(crate) enum Keyword {
    // Above the calls of a row, or above the first row.
    Row,
    Content,
    File,
    Missing,
    Changes,
    // A call.
    Call,
    Also,
    Then,
    // What is wanted of a call.
    Status,
    Prints,
    PrintsBeginning,
    PrintsEnding,
    PrintsAtLine,
    PrintsAgain,
    PrintsEndOf,
    PrintsAnything,
    After,
    Begins,
    Any,
    Same,
    Calls,
    Puts,
    FailsCall,
    FailsPut,
    // What went wrong.
    Arguments,
    Fault,
    Output,
    Line,
    Note,
    Memory,
    Dict,
    Patterns,
    Params,
    Translate,
    Refused,
    // What else is said of it.
    Says,
    Reason,
    Before,
    Found,
    Wanted,
    // Pieces.
    TextAndLf,
    Text,
    Named,
    Bytes,
    Sample,
    Joined,
    Cells,
    Words,
    // Both what is said and a piece.
    Letters,
}

/// How the keywords are written.
const KEYWORDS: [(&str, Keyword); 49] = [
    ("row", Keyword::Row),
    ("content", Keyword::Content),
    ("file", Keyword::File),
    ("missing", Keyword::Missing),
    ("changes", Keyword::Changes),
    ("call", Keyword::Call),
    ("also", Keyword::Also),
    ("then", Keyword::Then),
    ("status", Keyword::Status),
    ("prints", Keyword::Prints),
    ("prints beginning", Keyword::PrintsBeginning),
    ("prints ending", Keyword::PrintsEnding),
    ("prints at line", Keyword::PrintsAtLine),
    ("prints again", Keyword::PrintsAgain),
    ("prints end of", Keyword::PrintsEndOf),
    ("prints anything", Keyword::PrintsAnything),
    ("after", Keyword::After),
    ("begins", Keyword::Begins),
    ("any", Keyword::Any),
    ("same", Keyword::Same),
    ("calls", Keyword::Calls),
    ("puts", Keyword::Puts),
    ("fails call", Keyword::FailsCall),
    ("fails put", Keyword::FailsPut),
    ("arguments", Keyword::Arguments),
    ("fault", Keyword::Fault),
    ("output", Keyword::Output),
    ("line", Keyword::Line),
    ("note", Keyword::Note),
    ("memory", Keyword::Memory),
    ("dict", Keyword::Dict),
    ("patterns", Keyword::Patterns),
    ("params", Keyword::Params),
    ("translate", Keyword::Translate),
    ("refused", Keyword::Refused),
    ("says", Keyword::Says),
    ("reason", Keyword::Reason),
    ("before", Keyword::Before),
    ("found", Keyword::Found),
    ("wanted", Keyword::Wanted),
    (">", Keyword::TextAndLf),
    ("+", Keyword::Text),
    ("=", Keyword::Named),
    ("bytes", Keyword::Bytes),
    ("sample", Keyword::Sample),
    ("joined", Keyword::Joined),
    ("cells", Keyword::Cells),
    ("words", Keyword::Words),
    ("letters", Keyword::Letters),
];

/// The keyword that is written so.
pub(crate) fn keyword_of(text: &str) -> Option<Keyword> {
    for (name, keyword) in KEYWORDS.iter() {
        if *name == text {
            return Some(*keyword);
        }
    }
    None
}

impl Keyword {
    /// Whether a piece begins with it.
    pub fn begins_piece(self) -> bool {
        matches!(
            self,
            Keyword::TextAndLf
                | Keyword::Text
                | Keyword::Named
                | Keyword::Bytes
                | Keyword::Sample
                | Keyword::Joined
                | Keyword::Cells
                | Keyword::Words
                | Keyword::Letters
        )
    }

    /// Whether a content belongs to it whose first piece may stand behind the colon.
    pub fn has_piece(self) -> bool {
        matches!(
            self,
            Keyword::Content
                | Keyword::File
                | Keyword::After
                | Keyword::Begins
                | Keyword::Prints
                | Keyword::PrintsBeginning
                | Keyword::PrintsEnding
                | Keyword::PrintsAtLine
        )
    }

    /// Whether a content belongs to it all of whose pieces stand below.
    pub fn is_above_pieces(self) -> bool {
        matches!(
            self,
            Keyword::Says
                | Keyword::Letters
                | Keyword::Dict
                | Keyword::Patterns
                | Keyword::Params
                | Keyword::Translate
                | Keyword::Refused
                | Keyword::Found
                | Keyword::Wanted
        )
    }

    /// Whether it says something of what is printed.
    pub fn is_of_prints(self) -> bool {
        matches!(
            self,
            Keyword::Prints
                | Keyword::PrintsBeginning
                | Keyword::PrintsEnding
                | Keyword::PrintsAtLine
                | Keyword::PrintsAgain
                | Keyword::PrintsEndOf
                | Keyword::PrintsAnything
        )
    }

    /// Whether it says what went wrong.
    pub fn asks(self) -> bool {
        matches!(
            self,
            Keyword::Arguments
                | Keyword::Fault
                | Keyword::Output
                | Keyword::Line
                | Keyword::Note
                | Keyword::Memory
                | Keyword::Dict
                | Keyword::Patterns
                | Keyword::Params
                | Keyword::Translate
                | Keyword::Refused
        )
    }
}
