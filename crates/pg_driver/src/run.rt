//! What a run gives.
use crate::records::{LevelRecord, PassRecord, Records};
use pg_patterns::PatternSet;
use pg_types::{Layout, Totals};
use std::marker::Model;

/// A run that is done: its final patterns, and what it recorded.
///
/// In each record of a pass the chosen and the hopeless are together at most the candidates. In all
/// totals the sum of good, bad and missed is below 2^40.
#[derive(Drop)]
pub struct Run {
    patterns: PatternSet,
    records: Records,
    totals: Totals,
    first_layout: Option<Layout>,
}

impl Model for Run {
    ghost use Rattle.std.specs.Prelude.{All};
    ghost use Rattle.pg_driver.specs.Inside.records.SoundRecords.{CompletedRun, IsSmall, IsSoundPass, IsSoundLevel};

    ghost Value = { CompletedRun };

    ghost view = { λ r. record {
      patterns = r.patterns;
      passes = r.records.passes;
      levels = r.records.levels;
      totals = r.totals;
      first_layout = r.first_layout;
      begun = r.records.begun;
    } };

    ghost invariant = { λ r. IsSmall r.totals };
}

impl Run {
    ghost use Rattle.std.specs.Prelude.{◌≡◌, All};
    ghost use Rattle.pg_driver.specs.Inside.records.SoundRecords.{IsSmall, IsSoundPass, IsSoundLevel};

    /// The run with these patterns, records, totals and first layout.
    pub(crate) fn new(
        patterns: PatternSet,
        records: Records,
        totals: Totals,
        first_layout: Option<Layout>,
    ) -> Run
        requires { IsSmall totals }
        ensures { result ≡ record {
          patterns = patterns;
          passes = records.passes;
          levels = records.levels;
          totals = totals;
          first_layout = first_layout;
          begun = records.begun;
        } }
    {
        Run {
            patterns,
            records,
            totals,
            first_layout,
        }
    }

    /// The final patterns.
    pub fn patterns(&self) -> &PatternSet
        ensures { result.now ≡ self.now.patterns }
    {
        &self.patterns
    }

    /// The records of the passes that have a candidate, in order.
    pub fn passes(&self) -> &[PassRecord]
        ensures value { result.now ≡ self.now.passes }
        ensures sound { All IsSoundPass result.now }
    {
        self.records.passes()
    }

    /// The records of the levels, in order.
    pub fn levels(&self) -> &[LevelRecord]
        ensures value { result.now ≡ self.now.levels }
        ensures sound { All IsSoundLevel result.now }
    {
        self.records.levels()
    }

    /// The totals of the final patterns.
    pub fn totals(&self) -> Totals
        ensures value { result ≡ self.now.totals }
        ensures small { IsSmall result }
    {
        self.totals
    }

    /// The layout before the first level, where the engine told one.
    pub fn first_layout(&self) -> Option<Layout>
        ensures { result ≡ self.now.first_layout }
    {
        self.first_layout
    }

    /// How many passes were begun. The others were skipped.
    pub fn begun(&self) -> u64
        ensures { result ≡ self.now.begun }
    {
        self.records.begun()
    }
}
