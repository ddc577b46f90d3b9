//! The reading of a line up to its first letter.
ghost use Rattle.std.specs.Prelude.{◌≡◌, length};
ghost use Rattle.pg_dict.specs.Inside.LineWords.{line_reading};
ghost use Rattle.pg_dict.specs.Inside.Lines.LineStarts.{IsLineStart};

use crate::entries::line::{Line, kind_of};
use pg_translate::{Item, Place};
use pg_types::{Refusal, Sign, Weight};

/// What a line begins with.
pub(crate) enum LineStart<'a> {
    /// Its first letter.
    Word {
        /// The word weight of the line.
        weight: Weight,
        /// The sign of the letter.
        sign: Sign,
        /// The line behind the letter.
        rest: &'a [u8],
    },
    /// No letter.
    Empty {
        /// The word weight for the lines below.
        weight: Weight,
    },
}

impl Line<'_> {
    /// The first letter of the line `text`, and its word weight: the last number before it, else
    /// that of the line above.
    pub(crate) fn seek<'a>(&self, text: &'a [u8]) -> Result<LineStart<'a>, Refusal>
        requires { length text.now ≡ self.now.size }
        ensures { IsLineStart self.now
            (line_reading self.now.table.now self.now.number self.now.weight text.now)
            result }
    {
        let mut weight = self.weight;
        let mut rest = text;
        'items: loop {
            match self.table.item(Place::Dictionary, rest) {
                Item::Letter(sign, after) => {
                    return Ok(LineStart::Word {
                        weight,
                        sign,
                        rest: after,
                    });
                }
                Item::Digit(number, after) => {
                    weight = Weight::from(number);
                    rest = after;
                }
                Item::Weight(number, after) => {
                    weight = number;
                    rest = after;
                }
                Item::Mark(_, after) => rest = after,
                Item::Edge(_) => unreachable!(),
                Item::End => return Ok(LineStart::Empty { weight }),
                Item::Bad => return Err(self.refuse(kind_of(rest), rest)),
            }
        }
    }
}
