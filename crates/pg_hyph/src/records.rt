//! The list of a string that stands in a word.
ghost use Rattle.std.specs.Prelude.{◌≡◌, ◌+◌, ◌≤◌, ◌&&◌, nat_le, length};
ghost use Rattle.pg_types.specs.declared.limits.TheConstants.{WORD_LETTERS_MAX};
ghost use Rattle.pg_outputs.specs.Lists.{list_of};
ghost use Rattle.pg_select.specs.Inside.words.Positions.{RaisesValues, RaisesCovers, RaisesAt, values_of, covers_of};
ghost use Rattle.pg_select.specs.Inside.words.WindowStrings.{is_within};
ghost use Rattle.pg_hyph.specs.Inside.ListValues.{pattern_value, value_by, cover_by};
ghost use Rattle.pg_hyph.specs.Inside.Walks.{by_list};

use pg_outputs::Outputs;
use pg_select::{Pass, WordState};
use pg_trie::HOPELESS;

/// Raises the values and covers of a word by the values and hopeless entries of the list at `head`.
/// The list is that of a string of `len` signs, which stands in the word from `start` on.
pub fn raise_by_list(
    outputs: &Outputs,
    head: u64,
    start: usize,
    len: usize,
    pass: &Pass,
    out: &mut WordState,
)
    requires head { head ≤ length outputs.now }
    requires start { start ≤ WORD_LETTERS_MAX + 2 }
    requires len { len ≤ WORD_LETTERS_MAX + 2 }
    ensures values { RaisesValues
        (by_list (value_by len) start (list_of outputs.now head)) out.old out.new }
    ensures covers { RaisesCovers
        (by_list (cover_by pass.now len) start (list_of outputs.now head)) out.old out.new }
{
    let mut at = head;
    while let Some((value, dot, next)) = outputs.first(at) {
        raise_at(value, dot, start, len, pass, out);
        at = next;
    }
}

/// Raises by one value or hopeless entry. A value raises the value of the position of its dot. A
/// value or hopeless entry covers the window there where it is at least the level, as a hopeless
/// entry always is, and the string stands in the window.
fn raise_at(value: u8, dot: u8, start: usize, len: usize, pass: &Pass, out: &mut WordState)
    requires start { start ≤ WORD_LETTERS_MAX + 2 }
    requires len { len ≤ WORD_LETTERS_MAX + 2 }
    ensures values { RaisesAt (start + dot) (value_by len (value, dot))
        (values_of out.old) (values_of out.new) }
    ensures covers { RaisesAt (start + dot) (cover_by pass.now len (value, dot)) (covers_of out.old)
        (covers_of out.new) }
{
    let covered = is_covering(value, dot, len, pass);
    out.raise(start + usize::from(dot), pattern_value(value), covered);
}

/// Whether a value or hopeless entry covers the window at its dot.
fn is_covering(value: u8, dot: u8, len: usize, pass: &Pass) -> bool
    requires { len ≤ WORD_LETTERS_MAX + 2 }
    ensures { result ≡ (nat_le pass.now.level value
        && is_within pass.now.len pass.now.dot len dot) }
{
    let is_high = pass.level <= value;
    is_high && pass.has_within(len, dot)
}

/// The value itself, and 0 for a hopeless entry.
fn pattern_value(value: u8) -> u8
    ensures { result ≡ pattern_value value }
{
    if value < HOPELESS { value } else { 0 }
}
