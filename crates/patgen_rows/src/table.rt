//! Reading a table. The file FORMAT says what its lines mean.
use crate::keyword::{Keyword, keyword_of};
use crate::pieces::{cut_times, push_piece, push_times};
use std::alloc::Global;
use std::io;

/// A line of a table.
#[derive(Clone, Copy)]
pub(crate) struct Line<'a> {
    /// Its number, counted from 1.
    pub number: usize,
    /// The keyword with which it begins.
    pub keyword: Keyword,
    /// What stands between the keyword and the colon.
    pub name: &'a str,
    /// What stands behind the colon.
    pub rest: &'a str,
    /// The index of its content among all of the table.
    content: usize,
}

/// The content of a line, and its name if it has one.
#[derive(Drop)]
struct Content<'a> {
    name: &'a str,
    bytes: Vec<u8>,
}

/// A call of the program, and the lines that say what is wanted of it.
#[derive(Drop)]
pub(crate) struct Call<'a> {
    pub line: Line<'a>,
    /// Whether it is made on the files that the call above left, and not on those of the row.
    pub is_behind: bool,
    pub wants: Vec<Line<'a>>,
}

/// The call that a line begins below another one. Of a call with the keyword `also` the same is
/// wanted as of the call above it.
fn call_below<'a>(alloc: Global, line: Line<'a>, above: Option<&Call<'a>>) -> io::Result<Call<'a>> {
    let mut call = Call {
        line,
        is_behind: line.keyword == Keyword::Then,
        wants: Vec::new(alloc),
    };
    match above {
        Some(above) if line.keyword == Keyword::Also => {
            call.is_behind = above.is_behind;
            call.wants.extend_from_slice(&above.wants)?;
            Ok(call)
        }
        None if line.keyword != Keyword::Call => {
            Err(io::Error::other("the line stands below no call"))
        }
        _ => Ok(call),
    }
}

/// The keyword of a line and the name behind it, if there is one.
fn keyword_and_name(front: &str) -> Option<(Keyword, &str)> {
    if let Some(keyword) = keyword_of(front) {
        return Some((keyword, ""));
    }
    let (keyword, name) = front.split_once(' ')?;
    Some((keyword_of(keyword)?, name))
}

/// A row: the lines above its calls, and the calls.
#[derive(Drop)]
pub(crate) struct Row<'a> {
    /// The line that begins it. Its title stands behind the colon.
    pub line: Line<'a>,
    pub lines: Vec<Line<'a>>,
    pub calls: Vec<Call<'a>>,
}

impl<'a> Row<'a> {
    /// The line above the calls that begins with this keyword.
    pub fn find(&self, keyword: Keyword) -> Option<&Line<'a>> {
        for line in self.lines.iter() {
            if line.keyword == keyword {
                return Some(line);
            }
        }
        None
    }
}

/// A table.
#[derive(Drop)]
pub(crate) struct Table<'a> {
    pub alloc: Global,
    contents: Vec<Content<'a>>,
    /// Whether pieces may stand below the last line.
    is_open: bool,
    /// The lines above the first row.
    pub shared: Vec<Line<'a>>,
    pub rows: Vec<Row<'a>>,
}

impl<'a> Table<'a> {
    /// Reads a table. Where it fails, `number` is that of the line that is wrong.
    pub fn read(alloc: Global, text: &'a str, number: &mut usize) -> io::Result<Table<'a>> {
        let mut table = Table {
            alloc,
            contents: Vec::new(alloc),
            is_open: false,
            shared: Vec::new(alloc),
            rows: Vec::new(alloc),
        };
        match table.read_lines(text, number) {
            Ok(()) => Ok(table),
            Err(error) => Err(error),
        }
    }

    /// Reads all lines.
    fn read_lines(&mut self, text: &'a str, number: &mut usize) -> io::Result<()> {
        for line in text.lines() {
            *number = number.saturating_add(1);
            if !line.is_empty() && !line.starts_with('#') {
                self.read_line(line, *number)?;
            }
        }
        Ok(())
    }

    /// Reads a line that is not empty.
    fn read_line(&mut self, line: &'a str, number: usize) -> io::Result<()> {
        if self.read_piece(line)? {
            return Ok(());
        }
        let Some((front, rest)) = line.split_once(':') else {
            return Err(io::Error::other("the line begins with no keyword of a table"));
        };
        let rest = rest.strip_prefix(' ').unwrap_or(rest);
        let Some((keyword, name)) = keyword_and_name(front) else {
            return Err(io::Error::other("the line begins with no keyword of a table"));
        };
        let line = Line {
            number,
            keyword,
            name,
            rest,
            content: self.contents.len(),
        };
        self.begin_content(&line)?;
        self.add(line)
    }

    /// Reads a piece of the last content; false where the line is none.
    fn read_piece(&mut self, line: &str) -> io::Result<bool> {
        let (times, simple) = cut_times(line);
        let (front, rest) = simple.split_once(' ').unwrap_or((simple, ""));
        match keyword_of(front) {
            Some(keyword) if keyword.begins_piece() => {
                self.append_piece(times, keyword, rest)?;
                Ok(true)
            }
            _ => Ok(false),
        }
    }

    /// Appends a piece so many times to the last content.
    fn append_piece(&mut self, times: usize, keyword: Keyword, rest: &str) -> io::Result<()> {
        let mut piece = Vec::new(self.alloc);
        push_piece(self, &mut piece, keyword, rest)?;
        self.append(times, &piece)
    }

    /// Appends bytes so many times to the last content.
    fn append(&mut self, times: usize, piece: &[u8]) -> io::Result<()> {
        match self.contents.last_mut() {
            Some(content) if self.is_open => Ok(push_times(&mut content.bytes, times, piece)?),
            _ => Err(io::Error::other("the piece stands below no content")),
        }
    }

    /// Begins the content of a line, whose first piece may stand behind the colon.
    fn begin_content(&mut self, line: &Line<'a>) -> io::Result<()> {
        let name = if line.keyword == Keyword::Content {
            line.name
        } else {
            ""
        };
        let bytes = Vec::new(self.alloc);
        self.contents.push(Content { name, bytes })?;
        self.is_open = line.keyword.has_piece() || line.keyword.is_above_pieces();
        if line.keyword.has_piece() {
            return self.read_first(line.rest);
        }
        Ok(())
    }

    /// Reads the first piece of a content, if there is one.
    fn read_first(&mut self, piece: &str) -> io::Result<()> {
        if piece.is_empty() || self.read_piece(piece)? {
            return Ok(());
        }
        Err(io::Error::other("the line has no piece of a content"))
    }

    /// Adds a line to the row or call that it belongs to, or begins one.
    fn add(&mut self, line: Line<'a>) -> io::Result<()> {
        match line.keyword {
            Keyword::Row => self.begin_row(line),
            Keyword::Call | Keyword::Also | Keyword::Then => self.begin_call(line),
            Keyword::Content => Ok(()),
            _ => self.add_below(line),
        }
    }

    /// Begins a row.
    fn begin_row(&mut self, line: Line<'a>) -> io::Result<()> {
        let alloc = self.alloc;
        self.rows.push(Row {
            line,
            lines: Vec::new(alloc),
            calls: Vec::new(alloc),
        })?;
        Ok(())
    }

    /// Begins a call.
    fn begin_call(&mut self, line: Line<'a>) -> io::Result<()> {
        let Some(row) = self.rows.last_mut() else {
            return Err(io::Error::other("the line stands in no row"));
        };
        let call = call_below(self.alloc, line, row.calls.last())?;
        row.calls.push(call)?;
        Ok(())
    }

    /// Adds a line to the last call, to the row that has none yet, or to those above the first row.
    fn add_below(&mut self, line: Line<'a>) -> io::Result<()> {
        match self.rows.last_mut() {
            None => self.shared.push(line)?,
            Some(row) => match row.calls.last_mut() {
                None => row.lines.push(line)?,
                Some(call) => call.wants.push(line)?,
            },
        }
        Ok(())
    }

    /// The content of a line.
    pub fn content(&self, line: &Line<'_>) -> &[u8] {
        match self.contents.get(line.content) {
            Some(content) => content.bytes.as_slice(),
            None => &[],
        }
    }

    /// The content of this name.
    pub fn named(&self, name: &str) -> io::Result<&[u8]> {
        for content in self.contents.iter() {
            if content.name == name {
                return Ok(content.bytes.as_slice());
            }
        }
        Err(io::Error::other("no content of this name stands above"))
    }
}
