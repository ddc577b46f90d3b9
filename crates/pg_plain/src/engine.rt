//! The plain engine.
ghost use Rattle.std.specs.Prelude.{◌≡◌, ◌≤◌, true, T, nat_eq, length};
ghost use Rattle.std.specs.FinMap.Entries.{is_sorted};
ghost use Rattle.std.specs.List.{list_all};
ghost use Rattle.pg_types.specs.declared.limits.TheConstants.{LEVEL_MAX, LENGTH_MAX};
ghost use Rattle.pg_patterns.specs.DottedSigns.{dotted_cmp};
ghost use Rattle.pg_patterns.specs.Inside.PatternMaps.{IsPatternMap};
ghost use Rattle.pg_plain.specs.Inside.Strings.{is_string, has_signs_up_to};

use crate::counts::{add, next_behind};
use crate::dotted_keys::DottedKey;
use crate::dotted_maps::{map_of, put_in, raise_in, set_of};
use crate::walk::walk;
use pg_dict::WordRef;
use pg_patterns::PatternSet;
use pg_select::{Engine, Pass, WordState};
use pg_types::{Cursor, Layout, Sign, Weight};
use std::alloc::{AllocError, Global};
use std::collections::BTreeMap;

/// An [`Engine`] over ordered maps, which tells no families.
///
/// A word costs a look-up for each of its strings up to the longest that a pattern begins with. To
/// give a window up costs a look-up. To count one and to choose one cost two. To begin a pass or end
/// a level costs at most the size of what is emptied.
#[derive(Drop)]
pub struct PlainEngine {
    signs: u16,
    patterns: BTreeMap<DottedKey, u8>,
    hopeless: BTreeMap<DottedKey, ()>,
    counts: BTreeMap<Cursor, (u64, u64)>,
    pass: Pass,
    /// How many passes were begun. Only contracts read it.
    begun: u64,
    ghost entries: { IsPatternMap patterns.entries },
    ghost strings: { T (is_sorted dotted_cmp hopeless.entries)
        × (list_all (λ e. is_string e.0) hopeless.entries ≡ true) },
    ghost known: { list_all (λ e. has_signs_up_to signs e.0.0) patterns.entries ≡ true },
    ghost hopeless_known: { list_all (λ e. has_signs_up_to signs e.0.0) hopeless.entries ≡ true },
    ghost counts_known: { list_all (λ e. has_signs_up_to signs e.0) counts.entries ≡ true },
    ghost windows: { list_all (λ e. nat_eq (length e.0) pass.len) counts.entries ≡ true },
    ghost level: { (1 ≤ pass.level) × (pass.level ≤ LEVEL_MAX) },
    ghost len: { (1 ≤ pass.len) × (pass.len ≤ LENGTH_MAX) },
    ghost dot: { pass.dot ≤ pass.len },
}

impl PlainEngine {
    ghost use Rattle.std.specs.Prelude.{◌≡◌, IfOk};
    ghost use Rattle.pg_patterns.specs.DottedSigns.{dotted_cmp};
    ghost use Rattle.pg_patterns.specs.Inside.PatternMaps.{SignsUpTo};
    ghost use Rattle.pg_select.specs.Inside.engine.Meanings.{new_engine};
    ghost use Rattle.pg_plain.specs.Inside.Engines.{plain_meaning};

    /// An engine with the greatest sign `signs` whose patterns are those of `start`. Nothing is
    /// hopeless or counted, no pass was begun, and the engine is tidy.
    pub fn new(alloc: Global, signs: u16, start: &PatternSet) -> Result<PlainEngine, AllocError>
        requires { SignsUpTo signs start.now }
        ensures { IfOk result (λ engine. plain_meaning engine ≡ new_engine signs start.now None) }
    {
        let patterns = map_of(alloc, start)?;
        Ok(PlainEngine {
            signs,
            patterns,
            hopeless: BTreeMap::new(alloc),
            counts: BTreeMap::new(alloc),
            pass: Pass {
                level: 1,
                len: 1,
                dot: 0,
            },
            begun: 0,
        })
    }
}

impl Engine for PlainEngine {
    ghost use Rattle.pg_plain.specs.Inside.Engines.{plain_meaning};

    ghost meaning = { plain_meaning };

    fn kept(&self) {
        let _counts = self.counts.len();
    }

    fn begin_pass(&mut self, level: u8, len: u8, dot: u8) {
        self.counts.clear();
        self.pass = Pass { level, len, dot };
        self.begun += 1;
    }

    fn hyphenate(&self, w: WordRef<'_>, out: &mut WordState) {
        *out = WordState::new();
        walk(&self.patterns, w.signs, &self.pass, out);
        walk(&self.hopeless, w.signs, &self.pass, out);
    }

    fn count(&mut self, window: &[Sign], good: bool, weight: Weight) -> Result<(), AllocError> {
        let mut at = Cursor::start();
        at.set(window);
        add(&mut self.counts, at, good, u64::from(weight))
    }

    fn sums(&self, window: &[Sign]) -> Option<(u64, u64)> {
        let mut at = Cursor::start();
        at.set(window);
        self.counts.get(&at).copied()
    }

    fn next_candidate(&self, at: &mut Cursor) -> Option<(u64, u64)> {
        next_behind(&self.counts, at)
    }

    fn choose(&mut self, at: &Cursor) -> Result<(), AllocError> {
        let signs = at.signs();
        let dotted = DottedKey::new(signs, self.pass.dot);
        raise_in(&mut self.patterns, dotted, self.pass.level)?;
        Ok(())
    }

    fn give_up(&mut self, at: &Cursor) -> Result<(), AllocError> {
        let signs = at.signs();
        let dotted = DottedKey::new(signs, self.pass.dot);
        put_in(&mut self.hopeless, dotted)?;
        Ok(())
    }

    fn end_level(&mut self) -> Result<(), AllocError> {
        self.hopeless.clear();
        Ok(())
    }

    fn copy_patterns(&self, alloc: Global) -> Result<PatternSet, AllocError> {
        set_of(alloc, &self.patterns)
    }

    fn layout(&self) -> Option<Layout> {
        None
    }
}
