//! The packed engine.
ghost use Rattle.std.specs.Prelude.{◌≡◌, ◌≤◌, true, length};
ghost use Rattle.pg_types.specs.declared.limits.TheConstants.{LENGTH_MAX, LEVEL_MAX};
ghost use Rattle.pg_types.specs.Inside.Signs.{IsSignCount};
ghost use Rattle.pg_types.specs.Tails.{tails};

use crate::start::trie_of;
use pg_count::CountTrie;
use pg_dict::WordRef;
use pg_hyph::hyphenate;
use pg_patterns::PatternSet;
use pg_select::{Engine, Pass, WordState};
use pg_trie::{HOPELESS, PatternTrie};
use pg_types::{Cursor, Layout, Sign, Weight};
use std::alloc::{AllocError, Global};

/// An [`Engine`] over tries in packed cells, which tells its families.
///
/// The patterns and the hopeless dotted strings share one trie, and the counts have another, whose
/// windows have the length of the pass. To hyphenate a word, the engine goes from each of its
/// positions along the word, from cell to cell.
#[derive(Drop)]
pub struct PackedEngine {
    trie: PatternTrie,
    counts: CountTrie,
    pass: Pass,
    /// How many passes were begun. Only contracts read it.
    begun: u64,
    /// Whether the tails are sure to be those of the patterns. Only contracts read it.
    tidy: bool,
    ghost one_alphabet: { counts.signs ≡ trie.signs },
    ghost window_len: { counts.len ≡ pass.len },
    ghost level_bounds: { (1 ≤ pass.level) × (pass.level ≤ LEVEL_MAX) },
    ghost len_bounds: { (1 ≤ pass.len) × (pass.len ≤ LENGTH_MAX) },
    ghost dot_inside: { pass.dot ≤ pass.len },
    ghost tidy_tails: { tidy ≡ true → length trie.records ≡ tails trie.patterns },
}

impl PackedEngine {
    ghost use Rattle.std.specs.Prelude.{◌≡◌, ◌≤◌, IfOk};
    ghost use Rattle.pg_patterns.specs.Inside.PatternMaps.{SignsUpTo};
    ghost use Rattle.pg_select.specs.Inside.engine.Meanings.{new_engine};
    ghost use Rattle.pg_packed.specs.Inside.Engines.{packed_meaning};
    ghost use Rattle.pg_packed.specs.Inside.Starts.{pattern_families};

    /// An engine with the greatest sign `signs` whose patterns are those of `start`. Nothing is
    /// hopeless or counted, no pass was begun, and the engine is tidy. Its families are those after
    /// the patterns are entered in their order.
    pub fn new(alloc: Global, signs: u16, start: &PatternSet) -> Result<PackedEngine, AllocError>
        requires signs { IsSignCount signs }
        requires known { SignsUpTo signs start.now }
        ensures { IfOk result (λ engine. packed_meaning engine
            ≡ new_engine signs start.now (Some (pattern_families signs start.now))) }
    {
        Ok(PackedEngine {
            trie: trie_of(alloc, signs, start)?,
            counts: CountTrie::new(alloc, signs)?,
            pass: Pass {
                level: 1,
                len: 1,
                dot: 0,
            },
            begun: 0,
            tidy: true,
        })
    }
}

impl Engine for PackedEngine {
    ghost use Rattle.pg_packed.specs.Inside.Engines.{packed_meaning};

    ghost meaning = { packed_meaning };

    fn kept(&self) {
        let _len = self.counts.window_len();
        let _lists = self.trie.outputs();
    }

    fn begin_pass(&mut self, level: u8, len: u8, dot: u8) {
        self.counts.begin(len);
        self.pass = Pass { level, len, dot };
        self.begun += 1;
    }

    fn hyphenate(&self, w: WordRef<'_>, out: &mut WordState) {
        let Pass { level, len, dot } = self.pass;
        hyphenate(&self.trie, w, level, len, dot, out);
    }

    fn count(&mut self, window: &[Sign], good: bool, weight: Weight) -> Result<(), AllocError> {
        self.counts.add(window, good, weight)
    }

    fn sums(&self, window: &[Sign]) -> Option<(u64, u64)> {
        self.counts.sums(window)
    }

    fn next_candidate(&self, at: &mut Cursor) -> Option<(u64, u64)> {
        self.counts.next(at)
    }

    fn choose(&mut self, at: &Cursor) -> Result<(), AllocError> {
        let _len = self.counts.window_len();
        self.tidy = false;
        self.trie.enter(at.signs(), self.pass.dot, self.pass.level)
    }

    fn give_up(&mut self, at: &Cursor) -> Result<(), AllocError> {
        let _len = self.counts.window_len();
        self.tidy = false;
        self.trie.enter(at.signs(), self.pass.dot, HOPELESS)
    }

    fn end_level(&mut self) -> Result<(), AllocError> {
        self.trie.delete_hopeless()?;
        self.tidy = true;
        Ok(())
    }

    fn copy_patterns(&self, alloc: Global) -> Result<PatternSet, AllocError> {
        self.trie.copy(alloc)
    }

    fn layout(&self) -> Option<Layout> {
        Some(self.trie.layout())
    }
}
