//! The line of a file that is wrong, with a caret below the place.
ghost use Rattle.std.specs.Prelude.{◌≡◌, ◌≤◌, ◌+◌, ◌-◌, length, min, slice_range};

use crate::line::{Line, Part};
use crate::places::Spot;
use crate::text::Text;
use std::alloc::{AllocError, Global};

/// The most bytes of a line that are shown before a place, and from it on.
const AROUND: usize = 40;

/// What is shown of a line: the bytes before a place and those from it on.
fn cut(line: &[u8], at: usize) -> (&[u8], &[u8])
    requires { at ≤ length line.now }
    ensures before { result.0.now ≡ slice_range line.now (at - AROUND) at }
    ensures after { result.1.now ≡ slice_range line.now at (min (at + AROUND) (length line.now)) }
{
    let end = at.saturating_add(AROUND).min(line.len());
    (&line[at.saturating_sub(AROUND)..at], &line[at..end])
}

/// Appends what is shown of the line before a place.
fn add_front(line: &mut Line, spot: &Spot<'_>) -> Result<(), AllocError> {
    let (before, _) = cut(spot.text, spot.offset());
    let dots = if before.len() < spot.offset() {
        "..."
    } else {
        ""
    };
    line.say("    $0$1", &[Part::Say(dots), Part::Show(before)])
}

/// Appends what is shown of the line from a place on.
fn add_rest(line: &mut Line, spot: &Spot<'_>) -> Result<(), AllocError> {
    let (_, after) = cut(spot.text, spot.offset());
    let dots = if after.len() < spot.rest().len() {
        "..."
    } else {
        ""
    };
    line.say("$0$1", &[Part::Show(after), Part::Say(dots)])
}

/// A caret in the column of a place, under the line as it is shown.
fn caret(alloc: Global, spot: &Spot<'_>) -> Result<Line, AllocError> {
    let mut line = Line::new(alloc);
    add_front(&mut line, spot)?;
    Line::caret(alloc, &line)
}

impl Text {
    ghost use Rattle.std.specs.Prelude.{OnOk};
    ghost use Rattle.pg_visible.specs.Inside.Texts.{Keeps};

    /// Appends the line, cut round the place.
    fn push_cut(&mut self, spot: &Spot<'_>) -> Result<(), AllocError>
        ensures { OnOk result (Keeps self.old self.new) }
    {
        let mut line = Line::new(self.alloc());
        add_front(&mut line, spot)?;
        add_rest(&mut line, spot)?;
        self.push(&line)
    }

    /// Appends the line, cut round the place, and a caret below the place.
    pub fn excerpt(&mut self, spot: &Spot<'_>) -> Result<(), AllocError>
        ensures { OnOk result (Keeps self.old self.new) }
    {
        self.push_cut(spot)?;
        let caret = caret(self.alloc(), spot)?;
        self.push(&caret)
    }
}
