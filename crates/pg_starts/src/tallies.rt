//! The sums of windows by number.
ghost use Rattle.std.specs.Prelude.{◌≡◌, ◌<◌, length, set, replicate, unwrap_or, slice_index_or, slice_get, None, Some, OnOk};
ghost use Rattle.pg_types.specs.Inside.counting.Counts.{AreSmall, with_weight};
ghost use Rattle.pg_starts.specs.Inside.CountsByNumber.{told_by};
ghost use Rattle.pg_starts.specs.Inside.Tallies.{tallied};

use pg_types::add_weight;
use std::alloc::{AllocError, Global};

/// The sums of good and of bad weights of the windows of a pass, by number. A window that was not
/// counted has none, so one of weight 0 counts.
#[derive(Drop)]
pub struct Tallies {
    /// The sums. They take a fill of zeros where a pass begins: the first number is 0 where nothing
    /// was counted, and else one more than twice the sum of good weights.
    sums: Vec<(u64, u64)>,
}

impl Tallies {
    ghost use Rattle.std.specs.Prelude.{◌≡◌, ◌<◌, length, set, replicate, unwrap_or, slice_index_or, slice_get, None, Some, OnOk};
    ghost use Rattle.pg_types.specs.Inside.counting.Counts.{AreSmall, with_weight};
    ghost use Rattle.pg_starts.specs.Inside.Tallies.{tallied};

    /// No window has a number. It takes no memory.
    pub fn new(alloc: Global) -> Tallies {
        Tallies {
            sums: Vec::new(alloc),
        }
    }

    /// Begins a pass whose windows have the numbers below `count`: none was counted.
    pub fn begin(&mut self, count: usize) -> Result<(), AllocError>
        ensures { OnOk result (tallied self.new ≡ replicate count None) }
    {
        self.sums.clear();
        self.sums.resize(count, (0, 0))?;
        Ok(())
    }

    /// How many windows have a number.
    pub fn len(&self) -> usize
        ensures { result ≡ length (tallied self.now) }
    {
        self.sums.len()
    }

    /// Adds `weight` to the good or the bad sum of the window with the number.
    #[inline(always)]
    pub fn add(&mut self, number: u32, good: bool, weight: u64)
        requires there { number < length (tallied self.old) }
        requires small { AreSmall (with_weight
            (unwrap_or (slice_index_or (tallied self.old) number None) (0, 0)) good weight) }
        ensures { tallied self.new ≡ set (tallied self.old) number (Some (with_weight
            (unwrap_or (slice_index_or (tallied self.old) number None) (0, 0)) good weight)) }
    {
        let sums = match self.sums(number) {
            Some(sums) => sums,
            None => (0, 0),
        };
        self.sums[number as usize] = kept(add_weight(sums, good, weight));
    }

    /// The sums of the window with the number; none where it was not counted.
    #[inline(always)]
    pub fn sums(&self, number: u32) -> Option<(u64, u64)>
        requires { number < length (tallied self.now) }
        ensures { result ≡ slice_index_or (tallied self.now) number None }
    {
        let (marked, bad) = self.sums[number as usize];
        if marked == 0 {
            return None;
        }
        Some((marked / 2, bad))
    }
}

/// The two numbers that stand for the sums of a window that was counted.
#[inline(always)]
fn kept(sums: (u64, u64)) -> (u64, u64)
    requires { AreSmall sums }
    ensures { told_by result ≡ Some sums }
{
    (sums.0 * 2 + 1, sums.1)
}
