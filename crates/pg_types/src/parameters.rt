//! The parameters of a run, and the reader of the file that holds them.
ghost use Rattle.std.specs.Prelude.{◌≡◌, ◌<◌, ◌≤◌, ◌+◌, ◌-◌, nat_lt, length, slice_get, IfOk, IfErr, OnOk, All};
ghost use Rattle.pg_types.specs.Inside.reading.ItemSteps.{FailsLevels, TakesLevels};
ghost use Rattle.pg_types.specs.Inside.Limits.{items_end};
ghost use Rattle.pg_types.specs.Inside.reading.Answers.{Gives};
ghost use Rattle.pg_types.specs.Parameters.{parameters};
ghost use Rattle.pg_types.specs.Inside.Ranges.{IsLevel};

use crate::items::Items;
use crate::limits::{FILE_MAX, LEVEL_MAX};
use crate::refusals::{Kind, ReadingError, Refusal};
use std::alloc::Global;
use std::marker::Model;

/// What one level is given: which windows it looks at, and how it chooses among them.
#[derive(Clone, Copy, Debug, PartialEq, Eq)]
pub struct LevelParams {
    /// The least length of a window, 1 to [`LENGTH_MAX`](crate::LENGTH_MAX).
    pub pat_start: u8,
    /// The greatest length of a window, `pat_start` to [`LENGTH_MAX`](crate::LENGTH_MAX).
    pub pat_finish: u8,
    /// The good weight: what a good position counts, 1 to [`COST_MAX`](crate::COST_MAX).
    pub good_wt: u32,
    /// The bad weight: what a bad position counts, 1 to [`COST_MAX`](crate::COST_MAX).
    pub bad_wt: u32,
    /// The threshold: what the weighted difference has to reach, 1 to
    /// [`COST_MAX`](crate::COST_MAX).
    pub thresh: u32,
}

/// The parameters of a run: its first and last level, and what each level that is run is given.
#[derive(Debug, Drop)]
pub struct Params {
    start: u8,
    finish: u8,
    levels: Vec<LevelParams>,
}

impl Model for Params {
    ghost use Rattle.pg_types.specs.Parameters.{Parameters};
    ghost use Rattle.pg_types.specs.Inside.Ranges.{AreParameters};

    ghost Value = { Parameters };

    ghost view = { λ p. record { start = p.start; finish = p.finish; levels = p.levels.items } };

    ghost invariant = { λ p. AreParameters
        (record { start = p.start; finish = p.finish; levels = p.levels.items }) };
}

impl Params {
    /// The first level, 1 to [`LEVEL_MAX`].
    pub fn start(&self) -> u8
        ensures value { result ≡ self.now.start }
        ensures low { 1 ≤ result }
        ensures high { result ≤ LEVEL_MAX }
    {
        self.start
    }

    /// The last level, 1 to [`LEVEL_MAX`]; where it is less than the first, no level is run.
    pub fn finish(&self) -> u8
        ensures value { result ≡ self.now.finish }
        ensures low { 1 ≤ result }
        ensures high { result ≤ LEVEL_MAX }
    {
        self.finish
    }

    /// How many levels are run.
    pub fn count(&self) -> usize
        ensures value { result ≡ length self.now.levels }
        ensures levels { result ≡ self.now.finish + 1 - self.now.start }
        ensures few { self.now.start + result ≤ LEVEL_MAX + 1 }
        ensures ranges { All IsLevel self.now.levels }
    {
        self.levels.len()
    }

    /// What the level with the number `i` of those that are run is given. They are counted from 0.
    pub fn level(&self, i: usize) -> &LevelParams
        requires { i < length self.now.levels }
        ensures value { slice_get self.now.levels i ≡ Some result.now }
        ensures ranges { IsLevel result.now }
    {
        &self.levels[i]
    }
}

/// Reads a file of parameters. It has `start finish`, and then `pat_start pat_finish good_wt bad_wt
/// thresh` for each level that is run. Behind them it may have the answer `y`, `Y`, `n` or `N` of
/// patgen's last question, which has no effect. Items stand between blanks, TABs, CRs and LFs, in
/// the order in which patgen asks for them.
///
/// The first item that fails its demand is refused, with its number as the line.
pub fn read_params(alloc: Global, bytes: &[u8]) -> Result<Params, ReadingError>
    ensures { Gives (λ p. p) result (parameters bytes.now) }
{
    if is_too_long(bytes) {
        return Err(ReadingError::Refused(Refusal {
            kind: Kind::ParametersTooLong,
            line: 0,
            column: 0,
        }));
    }
    let mut items = Items::new(bytes);
    let start = items.number(1, LEVEL_MAX as u32)? as u8;
    let finish = items.number(1, LEVEL_MAX as u32)? as u8;
    let levels = read_levels(alloc, &mut items, levels_between(start, finish))?;
    items.end()?;
    Ok(Params {
        start,
        finish,
        levels,
    })
}

/// Whether a file has more bytes than may be read.
fn is_too_long(bytes: &[u8]) -> bool
    ensures { result ≡ nat_lt FILE_MAX (length bytes.now) }
{
    bytes.len() > FILE_MAX
}

/// How many levels are run from the first to the last.
fn levels_between(start: u8, finish: u8) -> u8
    requires { finish ≤ LEVEL_MAX }
    ensures { result ≡ finish + 1 - start }
{
    (finish + 1).saturating_sub(start)
}

/// Reads what each of `count` levels is given.
fn read_levels(
    alloc: Global,
    items: &mut Items<'_>,
    count: u8,
) -> Result<Vec<LevelParams>, ReadingError>
    requires item_number { items.old.item_number ≡ 3 }
    requires count { count ≤ LEVEL_MAX }
    ensures count { IfOk result (λ levels. length levels.items ≡ count) }
    ensures ranges { IfOk result (λ levels. All IsLevel levels.items) }
    ensures item_number { OnOk result (items.new.item_number ≤ items_end) }
    ensures taken { IfOk result (λ levels. TakesLevels count items.old items.new levels.items) }
    ensures failed { IfErr result (FailsLevels count items.old) }
{
    let mut levels = Vec::new(alloc);
    'levels: for i in 0..count {
        let level = items.level()?;
        levels.push(level)?;
    }
    Ok(levels)
}
