//! The strings of a word that have cells in a table.
ghost use Rattle.std.specs.Prelude.{◌+◌, ◌<◌, ◌≤◌, length};
ghost use Rattle.pg_types.specs.declared.limits.TheConstants.{WORD_LETTERS_MAX};
ghost use Rattle.pg_table.specs.Forms.{sizes_of};
ghost use Rattle.pg_table.specs.Inside.view.ListsOf.{list_in};
ghost use Rattle.pg_select.specs.Inside.words.Positions.{values_of, Raises};
ghost use Rattle.pg_table.specs.Inside.view.Raising.{IsUncovered, by_value, by_record_list, by_table_strings, by_table_starts};

use crate::view::TableView;
use pg_select::WordState;
use pg_types::{PATTERN_SIGNS_MAX, Sign};

/// Takes in the lists of all strings of the word. From each start on it goes along the word from
/// cell to cell, up to the first string that has none.
pub fn walk(view: &TableView<'_>, w: &[Sign], out: &mut WordState)
    requires len { length w.now ≤ WORD_LETTERS_MAX + 2 }
    requires uncovered { IsUncovered out.old }
    ensures values { Raises (by_table_starts view.now w.now 0)
        (values_of out.old) (values_of out.new) }
    ensures uncovered { IsUncovered out.new }
{
    for start in 0..w.len() {
        take_strings(view, w, start, out);
    }
}

/// Takes in the lists of the strings that stand in the word from `start` on, the shorter ones
/// first.
fn take_strings(view: &TableView<'_>, w: &[Sign], start: usize, out: &mut WordState)
    requires len { length w.now ≤ WORD_LETTERS_MAX + 2 }
    requires inside { start ≤ length w.now }
    requires uncovered { IsUncovered out.old }
    ensures values { Raises (by_table_strings view.now w.now start 1)
        (values_of out.old) (values_of out.new) }
    ensures uncovered { IsUncovered out.new }
{
    let mut base = 0;
    for stop in start..w.len().min(start + PATTERN_SIGNS_MAX) {
        let Some(cell) = view.find(base, w[stop]) else {
            return;
        };
        take_list(view, cell.head, start, stop + 1 - start, out);
        if cell.child == 0 {
            return;
        }
        base = cell.child;
    }
}

/// Takes in the values of the list at `head`, that of the `len` signs of a word from `start` on.
fn take_list(view: &TableView<'_>, head: u32, start: usize, len: usize, out: &mut WordState)
    requires head { head ≤ (sizes_of view.now).records }
    requires start { start ≤ WORD_LETTERS_MAX + 2 }
    requires uncovered { IsUncovered out.old }
    ensures values { Raises (by_record_list start len (list_in view.now head))
        (values_of out.old) (values_of out.new) }
    ensures uncovered { IsUncovered out.new }
{
    let mut at = head;
    while let Some((value, dot, next)) = view.first(at) {
        raise(value, dot, start, len, out);
        at = next;
    }
}

/// Raises the value of the position of a dot. A dot past the end of its string counts for nothing.
fn raise(value: u8, dot: u8, start: usize, len: usize, out: &mut WordState)
    requires start { start ≤ WORD_LETTERS_MAX + 2 }
    requires uncovered { IsUncovered out.old }
    ensures values { Raises (by_value start len (value, dot))
        (values_of out.old) (values_of out.new) }
    ensures uncovered { IsUncovered out.new }
{
    let dot = usize::from(dot);
    if dot <= len {
        out.raise(start + dot, value, false);
    }
}
