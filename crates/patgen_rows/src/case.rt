//! The files of a row, and what its calls make of them.
use crate::changes::Change;
use crate::keyword::Keyword;
use crate::made::number_of;
use crate::table::{Call, Line, Row, Table};
use pg_outside::{Files, MemoryFiles, MemorySink, ReadError, Sink};
use pg_top::{Status, run};
use std::alloc::{AllocError, Global};
use std::{io, mem};

/// How many bytes the sink of a call and each of its files have room for.
const ROOM: usize = 4096;

/// A file, and what it has to hold, if that is known.
#[derive(Clone, Copy)]
pub(crate) struct Held<'a> {
    pub name: &'a str,
    pub bytes: Option<&'a [u8]>,
}

/// The files of a row, from call to call.
#[derive(Drop)]
pub(crate) struct Case<'a> {
    pub alloc: Global,
    pub table: &'a Table<'a>,
    /// The number of the line that is changed, 0 where none is.
    pub line: usize,
    pub files: MemoryFiles,
    pub holds: Vec<Held<'a>>,
    /// The answer of the last call, and what it printed.
    pub status: Status,
    pub out: MemorySink,
    /// What the call above that one printed.
    pub above: MemorySink,
    /// Whether the next call on the files fails, and the next put.
    pub is_call_due: bool,
    pub is_put_due: bool,
}

impl<'a> Case<'a> {
    /// No file and no call.
    pub fn new(alloc: Global, table: &'a Table<'a>, line: usize) -> Result<Case<'a>, AllocError> {
        Ok(Case {
            alloc,
            table,
            line,
            files: MemoryFiles::new(alloc),
            holds: Vec::new(alloc),
            status: Status::Done,
            out: MemorySink::new(alloc, 0)?,
            above: MemorySink::new(alloc, 0)?,
            is_call_due: false,
            is_put_due: false,
        })
    }

    /// Begins with the files that a row gives, one of them with a change, if there is one.
    pub fn begin(&mut self, row: &'a Row<'a>, change: Option<&'a Change<'a>>) -> io::Result<()> {
        hold_given(&mut self.holds, self.table, row, change)?;
        self.files = MemoryFiles::new(self.alloc);
        Ok(add_held(&mut self.files, &self.holds)?)
    }

    /// Does a call. The files then have to hold what it wants.
    pub fn call(&mut self, call: &Call<'a>) -> io::Result<()> {
        self.above = mem::replace(&mut self.out, MemorySink::new(self.alloc, ROOM)?);
        self.status = answer(self.alloc, call, &mut self.files, &mut self.out)?;
        hold_wanted(&mut self.holds, self.table, &call.wants)?;
        self.is_call_due = is_call_due(self.alloc, &mut self.files, &self.holds);
        self.is_put_due = self.out.put(b"").is_err();
        Ok(())
    }
}

/// The answer of a call over files and a sink, of which those calls fail that it lists.
fn answer(
    alloc: Global,
    call: &Call<'_>,
    files: &mut MemoryFiles,
    out: &mut MemorySink,
) -> io::Result<Status> {
    list_faults(&call.wants, files, out)?;
    let arguments = arguments_of(alloc, call.line.rest)?;
    Ok(run(alloc, &arguments, files, out))
}

/// From now on the files have to hold what a row gives, one of them with a change, if there is one.
pub(crate) fn hold_given<'a>(
    holds: &mut Vec<Held<'a>>,
    table: &'a Table<'a>,
    row: &'a Row<'a>,
    change: Option<&'a Change<'a>>,
) -> io::Result<()> {
    holds.clear();
    hold_lines(holds, table, &table.shared)?;
    hold_lines(holds, table, &row.lines)?;
    match change {
        Some(change) => Ok(hold(holds, change.name, Some(&change.bytes))?),
        None => Ok(()),
    }
}

/// From now on the files have to hold what these lines give.
fn hold_lines<'a>(
    holds: &mut Vec<Held<'a>>,
    table: &'a Table<'a>,
    lines: &[Line<'a>],
) -> io::Result<()> {
    for line in lines {
        match line.keyword {
            Keyword::File => hold(holds, line.name, Some(table.content(line)))?,
            Keyword::Missing => hold(holds, line.rest, None)?,
            Keyword::Changes => {}
            _ => return Err(io::Error::other("a line belongs to no row of calls")),
        }
    }
    Ok(())
}

/// From now on a file has to hold this.
fn hold<'a>(
    holds: &mut Vec<Held<'a>>,
    name: &'a str,
    bytes: Option<&'a [u8]>,
) -> Result<(), AllocError> {
    for held in holds.iter_mut() {
        if held.name == name {
            held.bytes = bytes;
            return Ok(());
        }
    }
    holds.push(Held { name, bytes })?;
    Ok(())
}

/// Adds files with what they have to hold.
fn add_held(files: &mut MemoryFiles, holds: &[Held<'_>]) -> Result<(), AllocError> {
    for held in holds {
        if let Some(bytes) = held.bytes {
            files.add(held.name, bytes, ROOM)?;
        }
    }
    Ok(())
}

/// What the file of this name has to hold.
pub(crate) fn held_bytes<'a>(holds: &[Held<'a>], name: &str) -> Option<&'a [u8]> {
    for held in holds {
        if held.name == name {
            return held.bytes;
        }
    }
    None
}

/// Lists the calls on the files and the puts that are to fail, and the ones behind the last.
fn list_faults(
    wants: &[Line<'_>],
    files: &mut MemoryFiles,
    out: &mut MemorySink,
) -> io::Result<()> {
    for want in wants {
        match want.keyword {
            Keyword::FailsCall | Keyword::FailsPut => list_fault(want, files, out)?,
            Keyword::Calls => files.fail_at(number_behind(want.rest)?, None)?,
            Keyword::Puts => out.fail_at(number_behind(want.rest)?, None)?,
            _ => {}
        }
    }
    Ok(())
}

/// The number behind this one.
fn number_behind(text: &str) -> io::Result<u64> {
    Ok(u64::from(number_of(text)?) + 1)
}

/// Lists the call on the files or the put that fails by a line.
fn list_fault(want: &Line<'_>, files: &mut MemoryFiles, out: &mut MemorySink) -> io::Result<()> {
    let (number, keep) = want.rest.split_once(" keeps ").unwrap_or((want.rest, ""));
    let number = u64::from(number_of(number)?);
    let keep = keep_of(keep)?;
    if want.keyword == Keyword::FailsPut {
        Ok(out.fail_at(number, keep)?)
    } else {
        Ok(files.fail_at(number, keep)?)
    }
}

/// How many bytes are kept, if some are.
fn keep_of(text: &str) -> io::Result<Option<usize>> {
    if text.is_empty() {
        return Ok(None);
    }
    Ok(Some(number_of(text)? as usize))
}

/// From now on the files have to hold what is wanted of a call.
fn hold_wanted<'a>(
    holds: &mut Vec<Held<'a>>,
    table: &'a Table<'a>,
    wants: &[Line<'a>],
) -> Result<(), AllocError> {
    for want in wants {
        match want.keyword {
            Keyword::After => hold(holds, want.name, Some(table.content(want)))?,
            Keyword::Begins => hold(holds, want.name, None)?,
            Keyword::Any => hold_any(holds, want.rest)?,
            _ => {}
        }
    }
    Ok(())
}

/// From now on these files may hold anything.
fn hold_any<'a>(holds: &mut Vec<Held<'a>>, names: &'a str) -> Result<(), AllocError> {
    for name in names.split(' ') {
        hold(holds, name, None)?;
    }
    Ok(())
}

/// Whether the next call on the files fails.
fn is_call_due(alloc: Global, files: &mut MemoryFiles, holds: &[Held<'_>]) -> bool {
    let mut bytes = Vec::new(alloc);
    let name = match holds.first() {
        Some(held) => held.name,
        None => "",
    };
    files.read(alloc, name, 100, &mut bytes) == Err(ReadError::Failed)
}

/// The arguments of a line, which a blank parts. Two quotes are an empty one.
pub(crate) fn arguments_of(alloc: Global, line: &str) -> Result<Vec<String>, AllocError> {
    let mut arguments = Vec::new(alloc);
    if !line.is_empty() {
        push_arguments(&mut arguments, alloc, line)?;
    }
    Ok(arguments)
}

/// Appends the arguments of a line.
fn push_arguments(
    arguments: &mut Vec<String>,
    alloc: Global,
    line: &str,
) -> Result<(), AllocError> {
    for argument in line.split(' ') {
        let argument = if argument == "''" { "" } else { argument };
        arguments.push(String::from_str(alloc, argument)?)?;
    }
    Ok(())
}
