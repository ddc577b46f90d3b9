//! The windows that are counted in a pass, in the order of signs, each with its sums of good and bad
//! weights.
ghost use Rattle.std.specs.Prelude.{◌≡◌, ℕ, Bool, true, List, OnOk, OnErr, IsOk};
ghost use Rattle.std.specs.List.{list_all};
ghost use Rattle.pg_types.specs.Inside.counting.Counts.{AreSmall, IsNextAbove, sums_of, with_weight, with_count, is_counted};

use pg_types::{Cursor, add_weight};
use std::alloc::AllocError;
use std::collections::BTreeMap;
use std::ops::Bound;

/// Adds `weight` to the good or the bad sum of a window. A window that is counted already takes no
/// memory.
pub fn add(
    counts: &mut BTreeMap<Cursor, (u64, u64)>,
    window: Cursor,
    good: bool,
    weight: u64,
) -> Result<(), AllocError>
    requires { AreSmall (with_weight (sums_of counts.old.entries window) good weight) }
    ensures ok { OnOk result
        (counts.new.entries ≡ with_count counts.old.entries window good weight) }
    ensures there { is_counted counts.old.entries window ≡ true → IsOk result }
    ensures err { OnErr result (counts.new.entries ≡ counts.old.entries) }
    ensures windows { (test : List ℕ → Bool) → test window ≡ true
        → list_all (λ e. test e.0) counts.old.entries ≡ true
        → list_all (λ e. test e.0) counts.new.entries ≡ true }
{
    let sums = counts.get(&window).copied().unwrap_or((0, 0));
    counts.insert(window, add_weight(sums, good, weight))?;
    Ok(())
}

/// Moves the cursor to the least window that is greater, and gives its sums; none where there is no
/// such window. It takes no memory.
pub fn next_behind(counts: &BTreeMap<Cursor, (u64, u64)>, at: &mut Cursor) -> Option<(u64, u64)>
    ensures { IsNextAbove counts.now.entries at.old at.new result }
{
    let mut behind = counts.range((Bound::Excluded(&*at), Bound::Unbounded));
    let (window, sums) = behind.next()?;
    let sums = *sums;
    at.set(window.signs());
    Some(sums)
}
