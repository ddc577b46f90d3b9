//! The windows of a pass: their counts, by the numbers of their starts, and what becomes of each.
ghost use Rattle.std.specs.Prelude.{◌≡◌, ◌≤◌, ◌<◌, ◌++◌, ℕ, List, [], length, OnOk, IfOk};
ghost use Rattle.std.specs.Option.{IfSome};
ghost use Rattle.pg_types.specs.Inside.Limits.{sums_limit};
ghost use Rattle.pg_types.specs.Inside.Ranges.{IsLevel};
ghost use Rattle.pg_starts.specs.Inside.CountsByNumber.{counted_from};
ghost use Rattle.pg_starts.specs.Inside.Tallies.{tallied};
ghost use Rattle.pg_starts.specs.Inside.StartCountings.{AreCounting, counts_in, windows_in};
ghost use Rattle.pg_driver.specs.declared.pass_windows.TheConstants.{NO_NUMBER};
ghost use Rattle.pg_driver.specs.Inside.counting.Counting.{HasRoom};
ghost use Rattle.pg_driver.specs.Inside.level.PassWindows.{AreFates, fate_of_sums};

use crate::choices::SeenCandidate;
use pg_select::{Choice, decide};
use pg_starts::StartCounts;
use pg_types::{LevelParams, NUMBERS_END, Sign};
use std::alloc::{AllocError, Global};

/// This stands for the number of a window at a position that was not counted.
pub const NO_NUMBER: u32 = NUMBERS_END;

/// A position of a word.
#[derive(Clone, Copy)]
pub struct WordPosition {
    /// The number of the word in the dictionary, from 0.
    pub word: u32,
    /// The position in the word.
    pub at: u8,
}

/// What a pass keeps of its windows. The memory serves later passes.
#[derive(Drop)]
pub struct PassWindows {
    /// The windows that are counted, by the numbers of their starts.
    pub counts: StartCounts,
    /// Whether the windows of the length that is at work have numbers. They get them before its
    /// first pass that isn't skipped.
    pub numbered: bool,
    /// The number of the window of each position that is listed, in the order of these positions.
    pub numbers: Vec<u32>,
    /// The numbers of the counted windows, in the order of signs.
    pub order: Vec<u32>,
    /// What becomes of each window, by its number.
    pub fates: Vec<Choice>,
    /// The candidates that come next, while the choice goes on.
    pub seen: Vec<SeenCandidate>,
}

impl PassWindows {
    ghost use Rattle.std.specs.Prelude.{◌≡◌, ◌≤◌, ◌<◌, [], length, OnOk, IfOk};
    ghost use Rattle.pg_types.specs.Inside.Limits.{positions_limit};
    ghost use Rattle.pg_types.specs.Inside.counting.NumberedWindows.{AreInOrder};
    ghost use Rattle.pg_types.specs.Inside.Ranges.{IsLevel};
    ghost use Rattle.pg_starts.specs.Inside.Known.{AreKnown};
    ghost use Rattle.pg_starts.specs.Inside.StartCountings.{AreCounting, counts_in, windows_in};
    ghost use Rattle.pg_driver.specs.declared.pass_windows.TheConstants.{NO_NUMBER};
    ghost use Rattle.pg_driver.specs.Inside.counting.Counting.{HasRoom};
    ghost use Rattle.pg_driver.specs.Inside.level.PassWindows.{AreFates};

    /// No window of these signs has a number.
    pub fn new(alloc: Global, signs: &[Sign]) -> Result<PassWindows, AllocError>
        requires { length signs.now < positions_limit }
        ensures { IfOk result (λ w. AreKnown signs.now w.counts.numbers) }
    {
        let counts = StartCounts::new(alloc, signs)?;
        Ok(PassWindows {
            counts,
            numbered: false,
            numbers: Vec::new(alloc),
            order: Vec::new(alloc),
            fates: Vec::new(alloc),
            seen: Vec::new(alloc),
        })
    }

    /// Forgets the order and the decisions of the pass before.
    fn forget(&mut self)
        ensures order { self.new.order.items ≡ [] }
        ensures fates { self.new.fates.items ≡ [] }
        ensures numbers { self.new.numbers.items ≡ self.old.numbers.items }
        ensures counts { self.new.counts ≡ self.old.counts }
    {
        self.order.clear();
        self.fates.clear();
    }

    /// Puts the windows that were counted in order, and decides once what becomes of each.
    pub fn decide(&mut self, signs: &[Sign], params: &LevelParams) -> Result<(), AllocError>
        requires level { IsLevel params.now }
        requires counting { AreCounting signs.now self.old.counts }
        requires few { length signs.now ≤ NO_NUMBER }
        requires room { HasRoom (counts_in signs.now self.old.counts) 0 }
        ensures order { OnOk result (AreInOrder (windows_in signs.now self.old.counts)
            (counts_in signs.now self.old.counts) self.new.order.items) }
        ensures fates { OnOk result (AreFates params.now (counts_in signs.now self.old.counts)
            (windows_in signs.now self.old.counts) self.new.fates.items) }
        ensures few { OnOk result (length self.new.fates.items ≤ NO_NUMBER) }
        ensures numbers { self.new.numbers.items ≡ self.old.numbers.items }
        ensures counts { self.new.counts ≡ self.old.counts }
    {
        self.forget();
        decide_all(
            signs,
            params,
            &self.counts,
            &mut self.order,
            &mut self.fates,
        )
    }
}

/// Appends what becomes of each window, by number, and the numbers of those that were counted.
fn decide_all(
    signs: &[Sign],
    params: &LevelParams,
    counts: &StartCounts,
    order: &mut Vec<u32>,
    fates: &mut Vec<Choice>,
) -> Result<(), AllocError>
    requires level { IsLevel params.now }
    requires counting { AreCounting signs.now counts.now }
    requires few { length signs.now ≤ NO_NUMBER }
    requires room { HasRoom (counts_in signs.now counts.now) 0 }
    requires no_order { order.old.items ≡ [] }
    requires no_fates { fates.old.items ≡ [] }
    ensures order { OnOk result
        (order.new.items ≡ counted_from 0 (tallied counts.now.tallies)) }
    ensures fates { OnOk result (AreFates params.now (counts_in signs.now counts.now)
        (windows_in signs.now counts.now) fates.new.items) }
{
    'numbers: for number in 0..counts.count() {
        let sums = counts.sums(signs, number as u32);
        if sums.is_some() {
            order.push(number as u32)?;
        }
        fates.push(fate_of(params, sums))?;
    }
    Ok(())
}

/// What becomes of a window with these sums. It is left where it was not counted.
fn fate_of(params: &LevelParams, sums: Option<(u64, u64)>) -> Choice
    requires level { IsLevel params.now }
    requires small { IfSome sums (λ s. (s.0 < sums_limit) × (s.1 < sums_limit)) }
    ensures { result ≡ fate_of_sums params.now sums }
{
    match sums {
        Some((good, bad)) => decide(good, bad, params),
        None => Choice::Left,
    }
}
