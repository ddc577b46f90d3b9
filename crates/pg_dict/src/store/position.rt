//! What stands between two letters.
ghost use Rattle.std.specs.Prelude.{◌≡◌, ◌≤◌};
ghost use Rattle.pg_types.specs.declared.limits.TheConstants.{WEIGHT_MAX};
ghost use Rattle.pg_dict.specs.Inside.MarkedPositions.{sets_hyphen, keeps_care};

use pg_types::{Mark, Weight};

/// What is known of a position before the sign behind it comes.
#[derive(Clone, Copy)]
pub(crate) struct Position {
    /// The last mark at the position; nothing where there is none.
    pub mark: Mark,
    /// The last number at the position; the weight of the word where there is none.
    pub weight: Weight,
    pub ghost small: { weight ≤ WEIGHT_MAX },
}

impl Position {
    /// A position without mark and number, in a word of this weight.
    pub(crate) fn plain(weight: Weight) -> Position
        requires { weight ≤ WEIGHT_MAX }
        ensures mark { result.mark ≡ Mark.Nothing }
        ensures weight { result.weight ≡ weight }
    {
        Position {
            mark: Mark::Nothing,
            weight,
        }
    }

    /// The position after a number more: the last one counts.
    pub(crate) fn with_number(self, number: Weight) -> Position
        requires { number ≤ WEIGHT_MAX }
        ensures mark { result.mark ≡ self.mark }
        ensures weight { result.weight ≡ number }
    {
        Position {
            mark: self.mark,
            weight: number,
        }
    }

    /// The position after a mark more: the last one counts.
    pub(crate) fn with_mark(self, mark: Mark) -> Position
        ensures mark { result.mark ≡ mark }
        ensures weight { result.weight ≡ self.weight }
    {
        Position {
            mark,
            weight: self.weight,
        }
    }

    /// Whether the position has a hyphen: the last mark at it is missed or found.
    pub(crate) fn has_hyphen(self) -> bool
        ensures { result ≡ sets_hyphen self.mark }
    {
        matches!(self.mark, Mark::Missed | Mark::Found)
    }

    /// Whether the position counts: the last mark at it is not don't-care.
    pub(crate) fn counts(self) -> bool
        ensures { result ≡ keeps_care self.mark }
    {
        !matches!(self.mark, Mark::DontCare)
    }
}
