//! The strings of a word that have cells.
ghost use Rattle.std.specs.Prelude.{◌≡◌, ◌+◌, ◌<◌, ◌≤◌, [], length, drop};
ghost use Rattle.pg_types.specs.declared.limits.TheConstants.{WORD_LETTERS_MAX};
ghost use Rattle.pg_types.specs.Inside.Signs.{SignsWithin};
ghost use Rattle.pg_select.specs.Inside.words.Positions.{RaisesValues, RaisesCovers};
ghost use Rattle.pg_hyph.specs.Inside.ListValues.{lists_in, value_by, cover_by};
ghost use Rattle.pg_hyph.specs.Inside.Walks.{by_strings, by_starts};

use crate::records::raise_by_list;
use pg_outputs::Outputs;
use pg_select::{Pass, WordState};
use pg_trie::PatternTrie;
use pg_types::Sign;

/// Raises the values and covers of a word by the lists of all its strings. It takes no memory. From
/// each start on it goes along the word from cell to cell, up to the first string that has none.
pub fn walk(trie: &PatternTrie, outputs: &Outputs, w: &[Sign], pass: &Pass, out: &mut WordState)
    requires outputs { outputs.now ≡ trie.now.records }
    requires len { length w.now ≤ WORD_LETTERS_MAX + 2 }
    requires signs { SignsWithin trie.now.signs w.now }
    ensures values { RaisesValues (by_starts value_by (lists_in trie.now) 0 w.now) out.old out.new }
    ensures covers { RaisesCovers
        (by_starts (cover_by pass.now) (lists_in trie.now) 0 w.now) out.old out.new }
{
    for start in 0..w.len() {
        raise_by_strings(trie, outputs, w, start, pass, out);
    }
}

/// Raises them by the lists of the strings that stand in the word from `start` on, the shorter ones
/// first.
fn raise_by_strings(
    trie: &PatternTrie,
    outputs: &Outputs,
    w: &[Sign],
    start: usize,
    pass: &Pass,
    out: &mut WordState,
)
    requires outputs { outputs.now ≡ trie.now.records }
    requires len { length w.now ≤ WORD_LETTERS_MAX + 2 }
    requires signs { SignsWithin trie.now.signs w.now }
    requires inside { start < length w.now }
    ensures values { RaisesValues
        (by_strings value_by (lists_in trie.now) start [] (drop start w.now)) out.old
        out.new }
    ensures covers { RaisesCovers
        (by_strings (cover_by pass.now) (lists_in trie.now) start [] (drop start w.now))
        out.old out.new }
{
    let Some(first) = trie.step(None, w[start]) else {
        return;
    };
    raise_by_list(outputs, trie.head(first), start, 1, pass, out);
    let mut cell = first;
    for stop in start + 1..w.len() {
        let Some(next) = trie.step(Some(cell), w[stop]) else {
            return;
        };
        raise_by_list(outputs, trie.head(next), start, stop + 1 - start, pass, out);
        cell = next;
    }
}
