//! What a run records of its passes and levels.
use pg_types::{Layout, Totals};
use std::alloc::{AllocError, Global};
use std::marker::Model;

/// What a run records of a pass. It keeps this record only where the pass has a candidate.
#[derive(Clone, Copy, Debug, PartialEq, Eq)]
pub struct PassRecord {
    /// The level, 1 to [`LEVEL_MAX`](pg_types::LEVEL_MAX).
    pub level: u8,
    /// The length of the windows in signs, 1 to [`LENGTH_MAX`](pg_types::LENGTH_MAX).
    pub len: u8,
    /// How many signs stand before the dot, 0 to `len`.
    pub dot: u8,
    /// The totals before the pass.
    pub before: Totals,
    /// How many windows are candidates: at least 1 in the records that a run keeps.
    pub candidates: u64,
    /// How many of them are chosen.
    pub chosen: u64,
    /// How many of them are hopeless.
    pub hopeless: u64,
    /// The sum of the good weights of the chosen.
    pub good: u64,
    /// The sum of the bad weights of the chosen.
    pub bad: u64,
    /// The layout after the pass, where the engine tells one. Its tails may count records that no
    /// pattern needs.
    pub layout: Option<Layout>,
}

impl PassRecord {
    ghost use Rattle.std.specs.Prelude.{◌≡◌, ◌+◌, ◌==◌};
    ghost use Rattle.pg_driver.specs.Inside.records.SoundRecords.{IsSoundPass};

    /// Whether the pass left no candidate: each of them is chosen or hopeless.
    pub(crate) fn left_none(&self) -> bool
        requires { IsSoundPass self.now }
        ensures { result ≡ (self.now.chosen + self.now.hopeless == self.now.candidates) }
    {
        self.chosen + self.hopeless == self.candidates
    }
}

/// What a run records of a level.
#[derive(Clone, Copy, Debug, PartialEq, Eq)]
pub struct LevelRecord {
    /// The level, 1 to [`LEVEL_MAX`](pg_types::LEVEL_MAX).
    pub level: u8,
    /// How many windows its passes chose.
    pub chosen: u64,
    /// The totals after the level.
    pub after: Totals,
    /// The layout after the level, where the engine tells one.
    pub layout: Option<Layout>,
}

/// The records of a run that goes on.
#[derive(Drop)]
pub struct Records {
    passes: Vec<PassRecord>,
    levels: Vec<LevelRecord>,
    chosen: u64,
    begun: u64,
}

impl Model for Records {
    ghost use Rattle.std.specs.Prelude.{All};
    ghost use Rattle.pg_driver.specs.Inside.records.SoundRecords.{RunRecords, IsSoundPass, IsSoundLevel};

    ghost Value = { RunRecords };

    ghost view = { λ r. record {
      passes = r.passes.items;
      levels = r.levels.items;
      chosen = r.chosen;
      begun = r.begun;
    } };

    ghost invariant = { λ r. All IsSoundPass r.passes.items × All IsSoundLevel r.levels.items };
}

impl Records {
    ghost use Rattle.std.specs.Prelude.{◌≡◌, ◌+◌, ◌<◌, ◌^◌, [], All, OnOk};
    ghost use Rattle.pg_driver.specs.Inside.records.SoundRecords.{RunRecords, IsSmall, IsSoundPass, IsSoundLevel, with_pass, with_level};

    /// No record. It takes no memory.
    pub fn new(alloc: Global) -> Records
        ensures { result ≡ record { passes = []; levels = []; chosen = 0; begun = 0 } }
    {
        Records {
            passes: Vec::new(alloc),
            levels: Vec::new(alloc),
            chosen: 0,
            begun: 0,
        }
    }

    /// Counts a pass that was begun, and adds its record where it has a candidate. After an error
    /// nothing is said of the records.
    pub fn add_pass(&mut self, pass: PassRecord) -> Result<(), AllocError>
        requires sound { IsSoundPass pass }
        requires room { self.old.chosen + pass.chosen < 2 ^ 64 }
        requires few { self.old.begun + 1 < 2 ^ 64 }
        ensures { OnOk result (self.new ≡ with_pass self.old pass) }
    {
        self.begun += 1;
        self.chosen += pass.chosen;
        if pass.candidates > 0 {
            self.passes.push(pass)?;
        }
        Ok(())
    }

    /// Adds the record of the level whose passes were added since the last one. After an error
    /// nothing is said of the records.
    pub fn end_level(
        &mut self,
        level: u8,
        after: Totals,
        layout: Option<Layout>,
    ) -> Result<(), AllocError>
        requires { IsSmall after }
        ensures { OnOk result (self.new ≡ with_level self.old level after layout) }
    {
        self.levels.push(LevelRecord {
            level,
            chosen: self.chosen,
            after,
            layout,
        })?;
        self.chosen = 0;
        Ok(())
    }

    /// The records of the passes that have a candidate, in order.
    pub fn passes(&self) -> &[PassRecord]
        ensures value { result.now ≡ self.now.passes }
        ensures sound { All IsSoundPass result.now }
    {
        self.passes.as_slice()
    }

    /// The records of the levels, in order.
    pub fn levels(&self) -> &[LevelRecord]
        ensures value { result.now ≡ self.now.levels }
        ensures sound { All IsSoundLevel result.now }
    {
        self.levels.as_slice()
    }

    /// How many passes were begun.
    pub fn begun(&self) -> u64
        ensures { result ≡ self.now.begun }
    {
        self.begun
    }
}
