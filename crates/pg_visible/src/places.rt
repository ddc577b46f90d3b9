//! Where in a file a place is.
ghost use Rattle.std.specs.Prelude.{◌≡◌, ◌-◌, slice_get};
ghost use Rattle.std.specs.Option.{option_copied};
ghost use Rattle.pg_types.specs.Lines.{lines};

use pg_types::next_line;

/// A place in a file, with its line without its end. Columns count bytes.
#[derive(Clone, Copy)]
pub struct Spot<'a> {
    /// From 1.
    pub line: usize,
    /// From 1.
    pub column: usize,
    /// The line, without its end.
    pub text: &'a [u8],
}

/// The line with this number, from 1, without its end; none where the file has fewer lines.
fn line_at(bytes: &[u8], line: usize) -> Option<&[u8]>
    ensures { option_copied result ≡ slice_get (lines bytes.now) (line - 1) }
{
    let mut left = line;
    let mut rest = bytes;
    'lines: while let Some((text, after)) = next_line(rest) {
        if left <= 1 {
            return Some(text);
        }
        left -= 1;
        rest = after;
    }
    None
}

impl<'a> Spot<'a> {
    ghost use Rattle.std.specs.Prelude.{◌≡◌, ◌-◌, [], length, min, drop, slice_get, unwrap_or};
    ghost use Rattle.pg_types.specs.Lines.{lines};

    /// The place in this line and column. The line is empty where the file has fewer lines.
    pub fn new(bytes: &'a [u8], line: usize, column: usize) -> Spot<'a>
        ensures line { result.line ≡ line }
        ensures column { result.column ≡ column }
        ensures text { result.text.now ≡ unwrap_or (slice_get (lines bytes.now) (line - 1)) [] }
    {
        Spot {
            line,
            column,
            text: line_at(bytes, line).unwrap_or(&[]),
        }
    }

    /// How many bytes of the line stand before the place.
    pub fn offset(&self) -> usize
        ensures { result ≡ min (self.now.column - 1) (length self.now.text.now) }
    {
        self.column.saturating_sub(1).min(self.text.len())
    }

    /// The rest of the line, from the place on.
    pub fn rest(&self) -> &'a [u8]
        ensures { result.now ≡ drop (self.now.column - 1) self.now.text.now }
    {
        &self.text[self.offset()..]
    }
}
