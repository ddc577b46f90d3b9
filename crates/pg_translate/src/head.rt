//! The head of a translate file: the minima and the mark bytes.
ghost use Rattle.std.specs.Prelude.{◌≡◌, ◌<◌, ◌≤◌, ◌∷◌, [], true, false, not, List, MatchOption, IfSome, MatchResult, Ok, Err, IfOk, OnOk, ◌+◌};
ghost use Rattle.pg_types.specs.ValuesOrRefusals.{refusal_at};
ghost use Rattle.pg_translate.specs.Inside.tables.Checks as checks;

use crate::reading::is_space;
use pg_types::{Kind, Refusal};

/// The greatest minimum of a table.
pub const MINIMUM_MAX: u8 = 99;

/// The left minimum of a table whose head has none.
pub const DEFAULT_LEFT: u8 = 2;

/// The right minimum of a table whose head has none.
pub const DEFAULT_RIGHT: u8 = 3;

/// The byte for an erroneous position where the head has a blank.
pub const DEFAULT_ERROR: u8 = b'.';

/// The byte for a missed position where the head has a blank.
pub const DEFAULT_MISSED: u8 = b'-';

/// The byte for a found position where the head has a blank.
pub const DEFAULT_FOUND: u8 = b'*';

/// The byte for a don't-care position where the head has a blank.
pub const DEFAULT_DONT_CARE: u8 = b'?';

/// How many letters there are from a to z, which are those of the default table.
pub const A_TO_Z: u8 = 26;

/// The minima and the mark bytes of a table.
#[derive(Clone, Copy)]
pub(crate) struct Head {
    pub(crate) left: u8,
    pub(crate) right: u8,
    pub(crate) error: u8,
    pub(crate) missed: u8,
    pub(crate) found: u8,
    pub(crate) dont_care: u8,
}

/// The byte in a column of the head, counted from 1; a column past its end is blank.
fn in_column(head: &[u8], column: usize) -> u8
    requires { 0 < column }
    ensures { result ≡ checks.in_column head.now column }
{
    match head.get(column - 1) {
        Some(&byte) => byte,
        None => b' ',
    }
}

/// The value of a digit and a blank, a blank and a digit, or two digits; 0, which is no minimum,
/// for other pairs.
fn pair_value(first: u8, second: u8) -> u8
    ensures value { result ≡ checks.pair_value first second }
    ensures few { result ≤ MINIMUM_MAX }
{
    if first.is_ascii_digit() {
        if second.is_ascii_digit() {
            (first - b'0') * 10 + (second - b'0')
        } else if second == b' ' {
            first - b'0'
        } else {
            0
        }
    } else if first == b' ' && second.is_ascii_digit() {
        second - b'0'
    } else {
        0
    }
}

/// The pair of bytes that begins at a column of the head.
pub(crate) fn pair_at(head: &[u8], column: usize) -> (u8, u8)
    requires some { 0 < column }
    requires few { column < 100 }
    ensures { result ≡ checks.pair_at head.now column }
{
    (in_column(head, column), in_column(head, column + 1))
}

/// The minimum of a pair beside the other pair, where two blanks mean a default; none where the
/// pair fails.
pub(crate) fn minimum(pair: (u8, u8), other: (u8, u8), default: u8) -> Option<u8>
    requires some { 0 < default }
    requires few { default ≤ MINIMUM_MAX }
    ensures value { MatchOption result (checks.pair_fails pair other ≡ true)
        (λ m. (checks.pair_fails pair other ≡ false) × (m ≡ checks.pair_minimum pair default)) }
    ensures range { IfSome result (λ m. (0 < m) × (m ≤ MINIMUM_MAX)) }
{
    let blank = (b' ', b' ');
    if pair == blank {
        return if other == blank { Some(default) } else { None };
    }
    let value = pair_value(pair.0, pair.1);
    if value == 0 { None } else { Some(value) }
}

/// The mark byte in a column of the head; a blank means a default.
pub(crate) fn mark_in(head: &[u8], column: usize, default: u8) -> u8
    requires { 0 < column }
    ensures { result ≡ checks.mark_in head.now column default }
{
    let byte = in_column(head, column);
    if byte == b' ' { default } else { byte }
}

/// Whether a byte may not be a mark: it is a digit, a blank, a TAB, an LF, a CR or `{`, or equals
/// an earlier mark. In a head a blank stands for a default, and no head holds an LF. Both are in
/// the rule all the same, so that the rules of a table alone show that items end where lines do.
pub(crate) fn mark_fails(earlier: &[u8], mark: u8) -> bool
    ensures { result ≡ checks.mark_fails earlier.now mark }
{
    mark.is_ascii_digit() || is_space(mark) || mark == b'{' || earlier.contains(&mark)
}

/// The two minima of a head, or the refusal of the first pair that fails.
fn minima(line: &[u8]) -> Result<(u8, u8), Refusal>
    ensures answer { MatchResult result
        (λ m. (checks.minima_checks line.now ≡ []) × (m.0 ≡ checks.left_minimum line.now)
        × (m.1 ≡ checks.right_minimum line.now))
        (λ r. checks.first_failure (checks.minima_checks line.now) ≡ Err r) }
    ensures range { IfOk result
        (λ m. (0 < m.0) × (m.0 ≤ MINIMUM_MAX) × (0 < m.1) × (m.1 ≤ MINIMUM_MAX)) }
{
    let (left, right) = (pair_at(line, 1), pair_at(line, 3));
    let Some(first) = minimum(left, right, DEFAULT_LEFT) else {
        return Err(Refusal {
            kind: Kind::BadMinima,
            line: 1,
            column: 1,
        });
    };
    let Some(second) = minimum(right, left, DEFAULT_RIGHT) else {
        return Err(Refusal {
            kind: Kind::BadMinima,
            line: 1,
            column: 3,
        });
    };
    Ok((first, second))
}

/// The refusal of the mark in a column of the head.
fn bad_mark(column: u32) -> Refusal
    ensures { result ≡ refusal_at 1 Kind.BadMark column }
{
    Refusal {
        kind: Kind::BadMark,
        line: 1,
        column,
    }
}

/// Refuses the first mark byte of a head that may not be a mark. The four stand in columns 5 to 8.
fn check_marks(error: u8, missed: u8, found: u8, dont_care: u8) -> Result<(), Refusal>
    ensures { MatchResult result
        (λ _. checks.mark_checks (error ∷ missed ∷ found ∷ dont_care ∷ []) ≡ [])
        (λ r. checks.first_failure (checks.mark_checks (error ∷ missed ∷ found ∷ dont_care ∷ []))
        ≡ Err r) }
{
    if mark_fails(&[], error) {
        return Err(bad_mark(5));
    }
    if mark_fails(&[error], missed) {
        return Err(bad_mark(6));
    }
    if mark_fails(&[missed, error], found) {
        return Err(bad_mark(7));
    }
    if mark_fails(&[found, missed, error], dont_care) {
        return Err(bad_mark(8));
    }
    Ok(())
}

impl Head {
    ghost use Rattle.std.specs.Prelude.{◌≡◌, ◌∷◌, [], IfOk, MatchResult, Err};
    ghost use Rattle.pg_translate.specs.Inside.tables.Heads.{IsHead, IsSoundHead, head_marks};
    ghost use Rattle.pg_translate.specs.Inside.tables.Checks as checks;

    /// The default minima and marks.
    pub(crate) fn defaults() -> Head
        ensures left { result.left ≡ DEFAULT_LEFT }
        ensures right { result.right ≡ DEFAULT_RIGHT }
        ensures marks { head_marks result
            ≡ DEFAULT_ERROR ∷ DEFAULT_MISSED ∷ DEFAULT_FOUND ∷ DEFAULT_DONT_CARE ∷ [] }
        ensures sound { IsSoundHead result }
    {
        Head {
            left: DEFAULT_LEFT,
            right: DEFAULT_RIGHT,
            error: DEFAULT_ERROR,
            missed: DEFAULT_MISSED,
            found: DEFAULT_FOUND,
            dont_care: DEFAULT_DONT_CARE,
        }
    }

    /// The minima and marks of a head, or the refusal of the first that fails. A blank means a
    /// default.
    pub(crate) fn read(line: &[u8]) -> Result<Head, Refusal>
        ensures answer { MatchResult result (IsHead line.now)
            (λ r. checks.first_failure (checks.head_checks_by_pairs line.now) ≡ Err r) }
        ensures sound { IfOk result IsSoundHead }
    {
        let (left, right) = minima(line)?;
        let error = mark_in(line, 5, DEFAULT_ERROR);
        let missed = mark_in(line, 6, DEFAULT_MISSED);
        let found = mark_in(line, 7, DEFAULT_FOUND);
        let dont_care = mark_in(line, 8, DEFAULT_DONT_CARE);
        check_marks(error, missed, found, dont_care)?;
        Ok(Head {
            left,
            right,
            error,
            missed,
            found,
            dont_care,
        })
    }

    /// The bytes for an erroneous, a missed, a found and a don't-care position.
    pub(crate) fn marks(&self) -> [u8; 4]
        ensures { result ≡ head_marks self.now }
    {
        [self.error, self.missed, self.found, self.dont_care]
    }
}
