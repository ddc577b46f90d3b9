//! A text of a few lines.

use crate::line::Line;
use crate::line::Part::{self, Count, Name};
use crate::places::Spot;
use std::alloc::{AllocError, Global};
use std::marker::Model;

/// The most lines of a text. What comes behind them is left out.
pub const LINES_MAX: usize = 20;

/// A text, line by line. It shows its bytes.
#[derive(Drop)]
pub struct Text {
    alloc: Global,
    bytes: Vec<u8>,
    lines: usize,
}

impl Model for Text {
    ghost use Rattle.std.specs.Prelude.{◌≡◌, ℕ, List};
    ghost use Rattle.pg_visible.specs.Inside.Bytes.{line_count};
    ghost use Rattle.pg_visible.specs.Inside.Texts.{IsVisibleText};

    ghost Value = { List ℕ };

    ghost view = { λ t. t.bytes.items };

    ghost invariant = { λ t. (IsVisibleText t.bytes.items) × (line_count t.bytes.items ≡ t.lines) };
}

impl Text {
    ghost use Rattle.std.specs.Prelude.{◌≡◌, [], OnOk};
    ghost use Rattle.pg_visible.specs.Inside.Texts.{IsVisibleText, Keeps};

    /// A text of no line.
    pub fn new(alloc: Global) -> Text
        ensures { result ≡ [] }
    {
        Text {
            alloc,
            bytes: Vec::new(alloc),
            lines: 0,
        }
    }

    /// Its allocator.
    pub fn alloc(&self) -> Global {
        self.alloc
    }

    /// Appends a line, unless there are [`LINES_MAX`] already.
    pub(crate) fn push(&mut self, line: &Line) -> Result<(), AllocError>
        ensures { OnOk result (Keeps self.old self.new) }
    {
        if self.lines >= LINES_MAX {
            return Ok(());
        }
        let whole = line.whole(self.alloc)?;
        self.bytes.extend_from_slice(&whole)?;
        self.lines += 1;
        Ok(())
    }

    /// Appends a line of these words. A `$` with a digit behind it stands for the piece with this
    /// number, from 0.
    pub fn line(&mut self, words: &str, parts: &[Part<'_>]) -> Result<(), AllocError>
        ensures { OnOk result (Keeps self.old self.new) }
    {
        let mut line = Line::new(self.alloc);
        line.say(words, parts)?;
        self.push(&line)
    }

    /// Appends such a line behind the name of a file and a place in it.
    pub fn place(
        &mut self,
        name: &str,
        spot: &Spot<'_>,
        words: &str,
        parts: &[Part<'_>],
    ) -> Result<(), AllocError>
        ensures { OnOk result (Keeps self.old self.new) }
    {
        let mut line = Line::new(self.alloc);
        let place = [Name(name), Count(spot.line), Count(spot.column)];
        line.say("$0:$1:$2: ", &place)?;
        line.say(words, parts)?;
        self.push(&line)
    }

    /// Its bytes.
    pub fn into_bytes(self) -> Vec<u8>
        ensures value { result.items ≡ self }
        ensures text { IsVisibleText result.items }
    {
        self.bytes
    }
}
