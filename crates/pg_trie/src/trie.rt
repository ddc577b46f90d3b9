//! The pattern trie.
ghost use Rattle.std.specs.Prelude.{◌≡◌, ℕ, ◌+◌, ◌<◌, ◌≤◌, List, [], ◌∷◌, ◌++◌, length, map, take, Some, None, IfOk, OnOk, OnErr};
ghost use Rattle.std.specs.FinMap.Entries.{put};
ghost use Rattle.pg_types.specs.declared.limits.TheConstants.{LEVEL_MAX, PATTERN_SIGNS_MAX};
ghost use Rattle.pg_types.specs.Inside.Signs.{IsSignCount, IsTableSign, SignsWithin};
ghost use Rattle.pg_types.specs.Placement.{root, enter, kept_families, top};
ghost use Rattle.pg_types.specs.Inside.PlacementSteps.{taken_count};
ghost use Rattle.pg_types.specs.Inside.Placing.{cell_of};
ghost use Rattle.pg_types.specs.Tails.{tails};
ghost use Rattle.pg_patterns.specs.DottedSigns.{dotted_cmp};
ghost use Rattle.pg_patterns.specs.Values.{raise};
ghost use Rattle.pg_outputs.specs.Lists.{list_of};
ghost use Rattle.pg_outputs.specs.Inside.Heads.{Grows};
ghost use Rattle.pg_cells.specs.Inside.linked.Walks.{IsAt};
ghost use Rattle.pg_trie.specs.declared.hopeless.TheConstants.{HOPELESS};
ghost use Rattle.pg_trie.specs.Inside.Lists.{outputs_at};
ghost use Rattle.pg_trie.specs.Inside.Maps.{AreMaps};

use crate::copy::entries;
use crate::deleting::prune::prune;
use crate::deleting::renew::{fresh_heads, renew};
use crate::lists::head::Head;
use crate::lists::{Lists, raised_head};
use pg_cells::Cells;
use pg_outputs::Outputs;
use pg_patterns::PatternSet;
use pg_types::{Layout, Sign};
use std::alloc::{AllocError, Global};
use std::marker::Model;

/// Two maps from dotted strings: the values of the patterns, and the hopeless entries.
///
/// Each string has a cell, whose value is the head of the string's list: its values and hopeless
/// entries by rising dot, a value before the entry [`HOPELESS`](crate::HOPELESS) of its dot. Equal
/// ends of lists share their records.
#[derive(Drop)]
pub struct PatternTrie {
    alloc: Global,
    cells: Cells<Head>,
    lists: Lists,
}

impl Model for PatternTrie {
    ghost use Rattle.pg_trie.specs.Inside.Maps.{Maps, maps_of};
    ghost use Rattle.pg_trie.specs.Inside.IsPatternTrie.{IsPatternTrie};

    ghost Value = { Maps };

    ghost view = { λ t. maps_of t.cells t.lists };

    ghost invariant = { λ t. IsPatternTrie t.cells t.lists };
}

impl PatternTrie {
    /// The trie of signs up to `signs`, with neither a value nor a hopeless entry.
    pub fn new(alloc: Global, signs: u16) -> Result<PatternTrie, AllocError>
        requires { IsSignCount signs }
        ensures { IfOk result (λ t. t ≡ record {
          signs = signs;
          families = root signs;
          patterns = [];
          hopeless = [];
          records = [];
        }) }
    {
        Ok(PatternTrie {
            alloc,
            cells: Cells::new(alloc, signs, Head::none())?,
            lists: Lists::new(Outputs::new(alloc)),
        })
    }

    /// Raises the value at the dot of a string, or makes it hopeless for the value
    /// [`HOPELESS`](crate::HOPELESS).
    ///
    /// After an error the maps are as before. Some of the string's signs may then have cells, and
    /// there may be further records.
    pub fn enter(&mut self, signs: &[Sign], dot: u8, value: u8) -> Result<(), AllocError>
        requires some { 0 < length signs.now }
        requires few { length signs.now ≤ PATTERN_SIGNS_MAX }
        requires signs { SignsWithin self.old.signs signs.now }
        requires dot { dot ≤ length signs.now }
        requires value { (1 ≤ value) × (value ≤ HOPELESS) }
        ensures raised { OnOk result (value ≤ LEVEL_MAX →
            self.new ≡ record self.old {
              patterns = raise self.old.patterns (signs.now, dot) value;
              families = enter self.old.signs self.old.families signs.now;
              records = self.new.records;
            }) }
        ensures hopeless { OnOk result (value ≡ HOPELESS →
            self.new ≡ record self.old {
              hopeless = put dotted_cmp (signs.now, dot) (tt {0}) self.old.hopeless;
              families = enter self.old.signs self.old.families signs.now;
              records = self.new.records;
            }) }
        ensures err { OnErr result (self.new ≡ record self.old {
          families = self.new.families;
          records = self.new.records;
        }) }
        ensures part { OnErr result ((k : ℕ) × (k ≤ length signs.now)
            × (self.new.families ≡ enter self.old.signs self.old.families (take k signs.now))) }
        ensures grows { Grows self.old.records self.new.records }
        ensures signs { self.new.signs ≡ self.old.signs }
    {
        let cell = pg_cells::enter(&mut self.cells, signs, Head::none())?;
        let old = self.cells.value(cell).number();
        let head = raised_head(&mut self.lists, old, value, dot)?;
        self.cells.set_value(cell, head);
        Ok(())
    }

    /// Goes from a cell, or from the start for `None`, to the cell of the string with the sign
    /// added. `None` tells that no string has a cell there; then no string that begins with this
    /// one has a value or a hopeless entry. It takes no memory.
    pub fn step(&self, at: Option<usize>, s: Sign) -> Option<usize>
        requires at { (q : List ℕ) × (IsAt self.now.families at q) }
        requires sign { IsTableSign self.now.signs s }
        ensures cell { (q : List ℕ) → IsAt self.now.families at q
            → result ≡ cell_of self.now.families (q ++ s ∷ []) }
        ensures none { (q : List ℕ) → IsAt self.now.families at q
            → result ≡ None → (more : List ℕ) →
            outputs_at self.now.patterns self.now.hopeless ((q ++ s ∷ []) ++ more) ≡ [] }
    {
        pg_cells::step(&self.cells, at, s)
    }

    /// The head of the list of the cell's string, by [`PatternTrie::outputs`]. It takes no memory.
    pub fn head(&self, cell: usize) -> u64
        requires { (q : List ℕ) × (cell_of self.now.families q ≡ Some cell) }
        ensures list { (q : List ℕ) → cell_of self.now.families q ≡ Some cell →
            list_of self.now.records result ≡ outputs_at self.now.patterns self.now.hopeless q }
        ensures inside { result ≤ length self.now.records }
    {
        self.cells.value(cell).number()
    }

    /// The lists of all strings.
    pub fn outputs(&self) -> &Outputs
        ensures records { result.now ≡ self.now.records }
        ensures kept { AreMaps self.now }
    {
        self.lists.outputs()
    }

    /// Deletes the hopeless entries: a string of several signs that is no prefix of a pattern's
    /// loses its cell, and there is no record that the values do not need. It takes its memory
    /// before it changes anything.
    pub fn delete_hopeless(&mut self) -> Result<(), AllocError>
        ensures ok { OnOk result (self.new
            ≡ record self.old {
              hopeless = [];
              families = kept_families (map (λ e. e.0.0) self.old.patterns) self.old.families;
              records = self.new.records;
            }) }
        ensures tails { OnOk result (length self.new.records ≡ tails self.old.patterns) }
        ensures err { OnErr result (self.new ≡ self.old) }
        ensures signs { self.new.signs ≡ self.old.signs }
    {
        let mut fresh = Outputs::new(self.alloc);
        let heads = fresh_heads(self.alloc, &self.cells, self.lists.outputs(), &mut fresh)?;
        renew(&mut self.cells, &heads);
        prune(&mut self.cells);
        self.lists = Lists::new(fresh);
        Ok(())
    }

    /// The patterns.
    pub fn copy(&self, alloc: Global) -> Result<PatternSet, AllocError>
        ensures { IfOk result (λ patterns. patterns ≡ self.now.patterns) }
    {
        let entries = entries(alloc, &self.cells, self.lists.outputs())?;
        Ok(PatternSet::from_entries(entries))
    }

    /// How many cells are taken, the greatest of them, and as tails how many records the lists
    /// have. Entering may leave records that no list uses, so the tails are those of the patterns
    /// right after [`PatternTrie::delete_hopeless`]. It takes no memory.
    pub fn layout(&self) -> Layout
        ensures { result ≡ record {
          taken = taken_count self.now.families;
          top = top self.now.families;
          tails = length self.now.records;
        } }
    {
        Layout {
            taken: self.cells.taken() as u64,
            top: self.cells.top() as u64,
            tails: self.lists.outputs().len(),
        }
    }
}
