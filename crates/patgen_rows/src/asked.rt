//! The explanation that a row asks for, beside the text that it wants.
use crate::case::arguments_of;
use crate::compare::push_difference;
use crate::keyword::Keyword;
use crate::pieces::push_text;
use crate::table::{Line, Row, Table};
use pg_dict::Dictionary;
use pg_explain::{Before, ComparedLine, Deed, Fault, Letters, MEMORY, RefusalCase, Wrong, explain};
use pg_patterns::PatternSet;
use pg_translate::Table as LetterTable;
use pg_types::{Kind, ReadingError, Refusal, read_params};
use std::alloc::{AllocError, Global};
use std::io;

/// What a row asks.
#[derive(Clone, Copy)]
struct Asked<'a> {
    alloc: Global,
    table: &'a Table<'a>,
    row: &'a Row<'a>,
}

/// Compares the explanation that a row asks for with the one that it wants.
pub(crate) fn compare_explanation(
    alloc: Global,
    text: &mut String,
    table: &Table<'_>,
    row: &Row<'_>,
) -> io::Result<()> {
    let asked = Asked { alloc, table, row };
    let said = asked.said()?;
    let wanted = asked.content(Keyword::Says).unwrap_or(b"no text");
    let is_right = said.as_slice() == wanted;
    push_difference(text, is_right, "said", wanted, &said)
}

/// What a reader refuses; none where it accepts or finds no memory.
fn refusal_of<T: Drop>(read: Result<T, ReadingError>) -> Option<Refusal> {
    match read {
        Err(ReadingError::Refused(refusal)) => Some(refusal),
        Ok(_) | Err(ReadingError::Memory) => None,
    }
}

/// The kinds of refusal without a place.
const KINDS: [Kind; 7] = [
    Kind::TranslateTooLong,
    Kind::ParametersTooLong,
    Kind::PatternsTooLong,
    Kind::DictionaryTooLong,
    Kind::TableTooLong,
    Kind::BadTable,
    Kind::OtherTable,
];

/// The kind of refusal without a place that has this number.
fn kind_of(number: u16) -> Kind {
    for kind in KINDS {
        if kind.number() == number {
            return kind;
        }
    }
    Kind::OtherTable
}

/// The deed of a word.
fn deed_of(word: &str) -> Deed {
    match word {
        "reading" => Deed::Reading,
        "writing" => Deed::Writing,
        _ => Deed::Printing,
    }
}

/// The note of this name, which is said at status 0.
fn note_of(note: &str) -> Wrong<'static> {
    match note {
        "no word" => Wrong::NoWord { dict: "d.dic" },
        "no part" => Wrong::NoPart {
            dict: "d.dic",
            words: 12,
            left: 2,
            right: 3,
        },
        _ => Wrong::LowStart {
            patterns: "p.pat",
            largest: 5,
            start: 3,
        },
    }
}

/// The name of the file of a line.
fn name_of(keyword: Keyword) -> &'static str {
    match keyword {
        Keyword::Dict => "d.dic",
        Keyword::Patterns => "p.pat",
        Keyword::Params => "a.par",
        Keyword::Translate => "t.tra",
        _ => "x.tab",
    }
}

/// What the file of a line is refused for, by this table of letters.
fn refusal_in(
    alloc: Global,
    table: &LetterTable,
    line: &Line<'_>,
    bytes: &[u8],
) -> Option<Refusal> {
    match line.keyword {
        Keyword::Dict => refusal_of(Dictionary::read(alloc, table, bytes)),
        Keyword::Patterns => refusal_of(PatternSet::read(alloc, table, bytes)),
        Keyword::Params => refusal_of(read_params(alloc, bytes)),
        Keyword::Translate => refusal_of(LetterTable::read(alloc, bytes)),
        _ => Some(Refusal {
            kind: kind_of(line.rest.parse().unwrap_or(0)),
            line: 0,
            column: 0,
        }),
    }
}

/// The table by which the file of a keyword is read, if there is one.
fn table_for(keyword: Keyword, table: &LetterTable) -> Option<&LetterTable> {
    match keyword {
        Keyword::Params | Keyword::Translate => None,
        _ => Some(table),
    }
}

impl<'a> Asked<'a> {
    /// The content below a keyword.
    fn content(&self, keyword: Keyword) -> Option<&'a [u8]> {
        Some(self.table.content(self.row.find(keyword)?))
    }

    /// What stands behind a keyword; nothing where no line begins with it.
    fn rest(&self, keyword: Keyword) -> &'a str {
        match self.row.find(keyword) {
            Some(line) => line.rest,
            None => "",
        }
    }

    /// The explanation.
    fn said(&self) -> io::Result<Vec<u8>> {
        for line in self.row.lines.iter() {
            if line.keyword.asks() {
                return self.said_of(line);
            }
        }
        Err(io::Error::other("the row has no call, and asks for no explanation"))
    }

    /// The explanation of what a line says.
    fn said_of(&self, line: &Line<'a>) -> io::Result<Vec<u8>> {
        match line.keyword {
            Keyword::Arguments => self.said_arguments(line.rest),
            Keyword::Fault => self.said_fault(line.rest),
            Keyword::Output => self.explained(&Wrong::Output {
                name: line.rest,
                obstacle: self.rest(Keyword::Reason),
            }),
            Keyword::Line => self.said_false(line.rest),
            Keyword::Note => self.explained(&note_of(line.rest)),
            Keyword::Memory => Ok(MEMORY.to_vec(self.alloc)?),
            _ => self.said_of_file(line),
        }
    }

    /// The explanation of this.
    fn explained(&self, wrong: &Wrong<'_>) -> io::Result<Vec<u8>> {
        Ok(explain(self.alloc, wrong)?)
    }

    /// The explanation of arguments.
    fn said_arguments(&self, line: &str) -> io::Result<Vec<u8>> {
        let arguments = arguments_of(self.alloc, line)?;
        self.explained(&Wrong::Arguments {
            program: "patgen",
            arguments: &arguments,
        })
    }

    /// The explanation of a fault, in whose line escapes may stand.
    fn said_fault(&self, line: &str) -> io::Result<Vec<u8>> {
        let mut bytes = Vec::new(self.alloc);
        push_text(&mut bytes, line)?;
        self.said_failed(str::from_utf8(&bytes).unwrap_or(""))
    }

    /// The same of a line without escapes.
    fn said_failed(&self, line: &str) -> io::Result<Vec<u8>> {
        let (word, name) = line.split_once(' ').unwrap_or((line, ""));
        self.explained(&Wrong::Fault(Fault {
            deed: deed_of(word),
            name,
            reason: self.rest(Keyword::Reason),
            before: self.before(),
        }))
    }

    /// What was done before a fault.
    fn before(&self) -> Option<Before<'a>> {
        let (word, name) = self.rest(Keyword::Before).split_once(' ')?;
        let deed = deed_of(word);
        Some(Before { deed, name })
    }

    /// The explanation of a false line.
    fn said_false(&self, number: &str) -> io::Result<Vec<u8>> {
        self.explained(&Wrong::False(ComparedLine {
            name: "o.pat",
            line: number.parse().unwrap_or(0),
            found: self.content(Keyword::Found),
            wanted: self.content(Keyword::Wanted),
        }))
    }

    /// The explanation of what is wrong with the content of a line, which is read by the letters of
    /// the row.
    fn said_of_file(&self, line: &Line<'a>) -> io::Result<Vec<u8>> {
        let letters = self.content(Keyword::Letters).unwrap_or(b"");
        let table = match LetterTable::read(self.alloc, letters) {
            Ok(table) => table,
            Err(_) => LetterTable::default_letters(self.alloc)?,
        };
        self.said_by(&table, line)
    }

    /// The same by this table of letters.
    fn said_by(&self, table: &LetterTable, line: &Line<'a>) -> io::Result<Vec<u8>> {
        let bytes = self.table.content(line);
        match refusal_in(self.alloc, table, line, bytes) {
            Some(refusal) => {
                let table = table_for(line.keyword, table);
                self.said_refused(name_of(line.keyword), bytes, refusal, table)
            }
            None if line.keyword == Keyword::Patterns => self.explained(&Wrong::Behind {
                patterns: "p.pat",
                bytes,
            }),
            None => Ok(Vec::new(self.alloc)),
        }
    }

    /// The explanation of a refusal.
    fn said_refused(
        &self,
        name: &str,
        bytes: &[u8],
        refusal: Refusal,
        table: Option<&LetterTable>,
    ) -> io::Result<Vec<u8>> {
        let given = self.rest(Keyword::Letters);
        let table_name = if given.is_empty() { "t.tra" } else { given };
        let letters = match table {
            Some(table) => Some(Letters {
                name: table_name,
                table,
            }),
            None => None,
        };
        self.explained(&Wrong::Refused(RefusalCase {
            name,
            bytes,
            refusal,
            letters,
        }))
    }
}
