//! The values and the covers of a word.
ghost use Rattle.std.specs.Prelude.{◌+◌, ◌≤◌, length};
ghost use Rattle.pg_types.specs.declared.limits.TheConstants.{LEVEL_MAX, LENGTH_MAX, WORD_LETTERS_MAX};
ghost use Rattle.pg_types.specs.Inside.Signs.{SignsWithin};
ghost use Rattle.pg_select.specs.Inside.laws.ClosedDots.{pass_at};
ghost use Rattle.pg_select.specs.Inside.words.Positions.{HasValues, HasCovers};

use crate::walk::walk;
use pg_dict::WordRef;
use pg_select::{Pass, WordState};
use pg_trie::PatternTrie;

/// The value of each position of a word by the patterns of a trie. Where the window of the pass at
/// a position fits in the word, it also says whether the patterns and the hopeless entries cover
/// that window. Nothing is said of the cover of other positions. It takes no memory.
pub fn hyphenate(
    trie: &PatternTrie,
    w: WordRef<'_>,
    level: u8,
    len: u8,
    dot: u8,
    out: &mut WordState,
)
    requires word { length w.signs.now ≤ WORD_LETTERS_MAX + 2 }
    requires signs { SignsWithin trie.now.signs w.signs.now }
    requires level { (1 ≤ level) × (level ≤ LEVEL_MAX) }
    requires len { (1 ≤ len) × (len ≤ LENGTH_MAX) }
    requires dot { dot ≤ len }
    ensures values { HasValues trie.now.patterns w.entry.signs.now out.new.values }
    ensures covers { HasCovers
        (pass_at level len dot) trie.now.patterns trie.now.hopeless w.entry.signs.now
        out.new.covers }
{
    let outputs = trie.outputs();
    *out = WordState::new();
    walk(trie, outputs, w.signs, &Pass { level, len, dot }, out);
}
