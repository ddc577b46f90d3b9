//! The rows of a table, done in turn.
use crate::asked::compare_explanation;
use crate::case::{Case, held_bytes, hold_given};
use crate::changes::{Change, push_changes};
use crate::compare::compare_call;
use crate::keyword::Keyword;
use crate::table::{Call, Row, Table};
use std::alloc::{AllocError, Global};
use std::io;

/// What was done of a table.
#[derive(Drop)]
pub(crate) struct Trial<'n> {
    alloc: Global,
    name: &'n str,
    /// How many rows there are, how many calls were made, and how many of them went otherwise than
    /// wanted.
    pub rows: usize,
    pub calls: usize,
    pub wrong: usize,
    /// The number of the line that was read or done last.
    line: usize,
    /// What is wrong with the call that was made last.
    text: String,
    /// What was wrong with all of them.
    pub told: String,
}

impl<'n> Trial<'n> {
    /// No call so far.
    pub fn new(alloc: Global, name: &'n str) -> Trial<'n> {
        Trial {
            alloc,
            name,
            rows: 0,
            calls: 0,
            wrong: 0,
            line: 0,
            text: String::new(alloc),
            told: String::new(alloc),
        }
    }

    /// Reads a table and does its rows. Where a line cannot be read or done, that is wrong, and
    /// nothing behind it is done.
    pub fn try_text(&mut self, text: &str) -> Result<(), AllocError> {
        if let Err(error) = self.read_and_try(text) {
            self.wrong = self.wrong.saturating_add(1);
            let (name, line) = (self.name, self.line);
            writeln!(self.told, "{name} line {line}: {error}")?;
        }
        Ok(())
    }

    /// Reads a table and does its rows.
    fn read_and_try(&mut self, text: &str) -> io::Result<()> {
        let table = Table::read(self.alloc, text, &mut self.line)?;
        self.try_rows(&table)
    }

    /// Does all rows.
    fn try_rows(&mut self, table: &Table<'_>) -> io::Result<()> {
        self.rows = table.rows.len();
        for row in table.rows.iter() {
            self.try_row(&*table, &*row)?;
        }
        Ok(())
    }

    /// Does the calls of a row once, or once for each change of a file. A row without a call asks
    /// for an explanation.
    fn try_row<'a>(&mut self, table: &'a Table<'a>, row: &'a Row<'a>) -> io::Result<()> {
        if row.calls.is_empty() {
            return self.try_explanation(table, row);
        }
        match row.find(Keyword::Changes) {
            None => self.try_calls(table, row, None),
            Some(line) => {
                let changes = changes_of_row(self.alloc, table, row, line.rest)?;
                self.try_changes(table, row, &changes)
            }
        }
    }

    /// Does the calls of a row once for each change of a file.
    fn try_changes<'a>(
        &mut self,
        table: &'a Table<'a>,
        row: &'a Row<'a>,
        changes: &'a [Change<'a>],
    ) -> io::Result<()> {
        for change in changes {
            self.try_calls(table, row, Some(change))?;
        }
        Ok(())
    }

    /// Does the calls of a row in turn.
    fn try_calls<'a>(
        &mut self,
        table: &'a Table<'a>,
        row: &'a Row<'a>,
        change: Option<&'a Change<'a>>,
    ) -> io::Result<()> {
        let line = match change {
            Some(change) => change.line,
            None => 0,
        };
        let mut case = Case::new(self.alloc, table, line)?;
        self.try_each(&mut case, row, change)
    }

    /// Does the calls of a row in turn, over these files.
    fn try_each<'a>(
        &mut self,
        case: &mut Case<'a>,
        row: &'a Row<'a>,
        change: Option<&'a Change<'a>>,
    ) -> io::Result<()> {
        for call in row.calls.iter() {
            self.line = call.line.number;
            if !call.is_behind {
                case.begin(row, change)?;
            }
            self.try_call(case, row, call)?;
        }
        Ok(())
    }

    /// Does a call of a row.
    fn try_call<'a>(
        &mut self,
        case: &mut Case<'a>,
        row: &Row<'a>,
        call: &Call<'a>,
    ) -> io::Result<()> {
        self.text.clear();
        case.call(call)?;
        compare_call(&mut self.text, case, call)?;
        Ok(self.count(row)?)
    }

    /// Compares the explanation that a row asks for.
    fn try_explanation(&mut self, table: &Table<'_>, row: &Row<'_>) -> io::Result<()> {
        self.line = row.line.number;
        self.text.clear();
        compare_explanation(self.alloc, &mut self.text, table, row)?;
        Ok(self.count(row)?)
    }

    /// Counts a call, and tells what is wrong with it.
    fn count(&mut self, row: &Row<'_>) -> Result<(), AllocError> {
        self.calls = self.calls.saturating_add(1);
        if self.text.is_empty() {
            return Ok(());
        }
        self.wrong = self.wrong.saturating_add(1);
        let (name, line, title, text) = (self.name, self.line, row.line.rest, &self.text);
        write!(self.told, "{name} line {line}, {title}:\n{text}")
    }
}

/// The changes of a file of a row.
fn changes_of_row<'a>(
    alloc: Global,
    table: &'a Table<'a>,
    row: &'a Row<'a>,
    name: &'a str,
) -> io::Result<Vec<Change<'a>>> {
    let mut changes = Vec::new(alloc);
    let mut holds = Vec::new(alloc);
    hold_given(&mut holds, table, row, None)?;
    let Some(bytes) = held_bytes(&holds, name) else {
        return Err(io::Error::other("no file of this name stands above"));
    };
    push_changes(&mut changes, alloc, name, bytes)?;
    Ok(changes)
}
