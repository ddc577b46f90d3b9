//! The windows that are counted in a pass.
ghost use Rattle.std.specs.Prelude.{◌≡◌, ◌≤◌, ◌<◌, true, [], length, IfOk, OnOk, OnErr, IsOk};
ghost use Rattle.pg_types.specs.declared.limits.TheConstants.{LENGTH_MAX, WEIGHT_MAX};
ghost use Rattle.pg_types.specs.Inside.Signs.{IsSignCount, SignsWithin};
ghost use Rattle.pg_types.specs.Inside.counting.Counts.{AreSmall, IsNextAbove, counted_sums, sums_of, with_weight, with_count, is_counted};
ghost use Rattle.pg_cells.specs.Inside.linked.AreValuedFamilies.{AreValuedFamilies};
ghost use Rattle.pg_count.specs.Inside.Counting.{IsCounting, sums_at};

use crate::least::{CountedCells, least};
use pg_cells::{enter, step};
use pg_types::{Cursor, EDGE, LENGTH_MAX, Sign, Weight, add_weight};
use std::alloc::{AllocError, Global};
use std::marker::Model;

/// The windows that are counted in a pass, each with its sums of good and bad weights.
///
/// A window's signs lead from cell to cell, and the last cell has its sums. The memory of the cells
/// stays for later passes.
#[derive(Drop)]
pub struct CountTrie {
    cells: CountedCells,
    len: u8,
}

impl Model for CountTrie {
    ghost use Rattle.pg_count.specs.Inside.Counting.{Counting};

    ghost Value = { Counting };

    ghost use Rattle.pg_count.specs.Inside.Counting.{counting_of, AreCounting};

    ghost view = { λ t. counting_of t.cells t.len };

    ghost invariant = { λ t. AreCounting t.cells t.len };
}

impl CountTrie {
    /// No window is counted, and a window has one sign.
    pub fn new(alloc: Global, signs: u16) -> Result<CountTrie, AllocError>
        requires { IsSignCount signs }
        ensures { IfOk result (λ counts. counts ≡ record { signs = signs; len = 1; counts = [] }) }
    {
        let cells = CountedCells::new(alloc, signs, None)?;
        Ok(CountTrie { cells, len: 1 })
    }

    /// Begins a pass with windows of `len` signs: no window is counted. It takes no memory.
    pub fn begin(&mut self, len: u8)
        requires { (1 ≤ len) × (len ≤ LENGTH_MAX) }
        ensures { self.new ≡ record self.old { len = len; counts = [] } }
    {
        self.cells.reset(None);
        self.len = len;
    }

    /// How many signs a window has.
    pub fn window_len(&self) -> u8
        ensures len { result ≡ self.now.len }
        ensures kept { IsCounting self.now }
    {
        self.len
    }

    /// Adds `weight` to the good or the bad sum of a window. A window that is counted already takes
    /// no memory.
    pub fn add(&mut self, window: &[Sign], good: bool, weight: Weight) -> Result<(), AllocError>
        requires len { length window.now ≡ self.old.len }
        requires signs { SignsWithin self.old.signs window.now }
        requires weight { weight ≤ WEIGHT_MAX }
        requires small { AreSmall (with_weight (sums_of self.old.counts window.now) good weight) }
        ensures ok { OnOk result (self.new
            ≡ record self.old { counts = with_count self.old.counts window.now good weight }) }
        ensures there { is_counted self.old.counts window.now ≡ true → IsOk result }
        ensures err { OnErr result (self.new ≡ self.old) }
    {
        let cell = enter(&mut self.cells, window, None)?;
        let sums = self.cells.value(cell).unwrap_or((0, 0));
        let more = add_weight(sums, good, u64::from(weight));
        self.cells.set_value(cell, Some(more));
        Ok(())
    }

    /// The good and the bad sum of a window; none exactly where it is not counted. It takes no
    /// memory.
    pub fn sums(&self, window: &[Sign]) -> Option<(u64, u64)>
        requires len { length window.now ≡ self.now.len }
        requires signs { SignsWithin self.now.signs window.now }
        ensures { result ≡ counted_sums self.now.counts window.now }
    {
        sums_in(&self.cells, window)
    }

    /// Moves the cursor to the least counted window that is greater, and gives its good and bad
    /// sums; none exactly where there is no such window, and the cursor stays. It takes no memory.
    pub fn next(&self, at: &mut Cursor) -> Option<(u64, u64)>
        ensures { IsNextAbove self.now.counts at.old at.new result }
    {
        let mut room = [0; LENGTH_MAX as usize];
        let path = &mut room[..usize::from(self.len)];
        match least(&self.cells, 0, EDGE, at.signs(), path) {
            None => None,
            Some(sums) => {
                at.set(path);
                Some(sums)
            }
        }
    }
}

// The sums of a string, or `None` where it is not counted. The signs lead from cell to cell.
fn sums_in(cells: &CountedCells, signs: &[Sign]) -> Option<(u64, u64)>
    requires held { AreValuedFamilies cells.now }
    requires some { 0 < length signs.now }
    requires signs { SignsWithin cells.now.signs signs.now }
    ensures { result ≡ sums_at cells.now.values signs.now }
{
    let mut at = None;
    for s in signs {
        at = Some(step(cells, at, *s)?);
    }
    cells.value(at?)
}
