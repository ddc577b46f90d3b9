//! The candidates that come next, looked at together.
ghost use Rattle.std.specs.Prelude.{◌≡◌, ℕ, ◌+◌, ◌<◌, ◌≤◌, length, slice_get, Some, IfOk, OnOk};
ghost use Rattle.pg_driver.specs.declared.choices.look_ahead.SeenCandidate.{SeenCandidate};
ghost use Rattle.pg_driver.specs.Inside.choices.LookAhead.{AreSeen, AreThere, FitCursors, IsReadAhead};
ghost use Rattle.pg_starts.specs.Inside.StartCountings.{AreCounting, windows_in};

use pg_select::Choice;
use pg_starts::StartCounts;
use pg_types::{Cursor, Sign};
use std::alloc::AllocError;

/// So many candidates are looked at together.
const BLOCK: usize = 16;

/// A candidate that was looked at before its turn.
#[derive(Drop)]
pub struct SeenCandidate {
    /// What becomes of it.
    pub fate: Choice,
    /// Its window, read before its turn.
    pub window: Cursor,
}

/// Looks at the candidates with these numbers. Their windows stand far apart among the signs. Where
/// they are read together, the processor fetches them at the same time.
#[inline(never)]
fn look_at(
    signs: &[Sign],
    counts: &StartCounts,
    fates: &[Choice],
    numbers: &[u32],
    seen: &mut Vec<SeenCandidate>,
) -> Result<(), AllocError>
    requires counting { AreCounting signs.now counts.now }
    requires cursors { FitCursors (windows_in signs.now counts.now) numbers.now }
    requires there { AreThere (windows_in signs.now counts.now) numbers.now }
    requires fates { length fates.now ≡ length (windows_in signs.now counts.now) }
    ensures size { OnOk result (length seen.new.items ≡ length numbers.now) }
    ensures each { OnOk result ((k n : ℕ) (c : SeenCandidate) → slice_get numbers.now k ≡ Some n
        → slice_get seen.new.items k ≡ Some c
        → IsReadAhead fates.now (windows_in signs.now counts.now) n c) }
{
    seen.clear();
    'numbers: for number in numbers {
        let fate = fates[*number as usize];
        let mut window = Cursor::start();
        counts.read(signs, *number, &mut window);
        seen.push(SeenCandidate { fate, window })?;
    }
    Ok(())
}

/// Fills `seen` from index `k` of the order on, unless it has that candidate. `from` is the index
/// of the first in `seen`; the answer is that index afterwards.
#[inline(always)]
pub fn look_ahead(
    signs: &[Sign],
    counts: &StartCounts,
    fates: &[Choice],
    order: &[u32],
    k: usize,
    from: usize,
    seen: &mut Vec<SeenCandidate>,
) -> Result<usize, AllocError>
    requires counting { AreCounting signs.now counts.now }
    requires cursors { FitCursors (windows_in signs.now counts.now) order.now }
    requires there { AreThere (windows_in signs.now counts.now) order.now }
    requires fates { length fates.now ≡ length (windows_in signs.now counts.now) }
    requires within { k < length order.now }
    requires from { from ≤ k }
    requires seen { AreSeen fates.now (windows_in signs.now counts.now) order.now from
        seen.old.items }
    ensures from { IfOk result (λ first. first ≤ k) }
    ensures within { IfOk result (λ first. k < first + length seen.new.items) }
    ensures seen { IfOk result (λ first.
        AreSeen fates.now (windows_in signs.now counts.now) order.now first seen.new.items) }
{
    if k < from + seen.len() {
        return Ok(from);
    }
    let end = order.len().min(k + BLOCK);
    look_at(signs, counts, fates, &order[k..end], seen)?;
    Ok(k)
}
