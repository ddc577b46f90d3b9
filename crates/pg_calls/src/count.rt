//! Counts of windows, of the edge 1, a 2, b 3 and c 4, and of 2,000 letters.
ghost use Rattle.std.specs.Prelude.{◌≡◌, ℕ, ◌+◌, ◌<◌, ◌≤◌, List, length};
ghost use Rattle.pg_types.specs.Inside.counting.Counts.{sums_of};

use pg_count::CountTrie;
use pg_types::{Cursor, Sign, Weight};
use std::process::Abort;
use std::test::Fail;

/// Adds a weight of at most 9 to a window.
fn count_window(
    counts: &mut CountTrie,
    signs: u16,
    window: &[Sign],
    good: bool,
    weight: Weight,
) -> Result<(), Fail>
    requires signs { counts.old.signs ≡ signs }
    requires len { counts.old.len ≡ length window.now }
    requires room { (u : List ℕ) → ((sums_of counts.old.counts u).0 ≤ 1000)
        × ((sums_of counts.old.counts u).1 ≤ 1000) }
    ensures signs { counts.new.signs ≡ signs }
    ensures len { counts.new.len ≡ counts.old.len }
    ensures room { (n : ℕ) → ((u : List ℕ) → ((sums_of counts.old.counts u).0 ≤ n)
        × ((sums_of counts.old.counts u).1 ≤ n))
        → (u : List ℕ) → ((sums_of counts.new.counts u).0 ≤ n + 9)
        × ((sums_of counts.new.counts u).1 ≤ n + 9) }
{
    if 9 < weight || !window.iter().all(|&sign| 1 <= sign && sign <= signs) {
        return Err(Fail::new("signs of the table, and a weight of one digit"));
    }
    counts.add(window, good, weight)?;
    Ok(())
}

/// Begins a pass and counts windows, good or bad, with their weights. A window is as many of the
/// first signs of a row as the pass has.
fn count(
    counts: &mut CountTrie,
    signs: u16,
    len: u8,
    seen: &[([Sign; 4], bool, Weight)],
) -> Result<(), Fail>
    requires signs { counts.old.signs ≡ signs }
    requires len { (1 ≤ len) × (len ≤ 4) }
    requires few { length seen.now < 100 }
    ensures { counts.new.signs ≡ signs }
{
    counts.begin(len);
    for row in seen {
        count_window(counts, signs, &row.0[..usize::from(len)], row.1, row.2)?;
    }
    Ok(())
}

/// Compares the windows that are counted, in their order, with these: each has sums, and at the end
/// the cursor stays.
fn compare(
    rt: &impl Abort,
    counts: &CountTrie,
    len: u8,
    windows: &[([Sign; 4], Option<(u64, u64)>)],
)
    requires { len ≤ 4 }
{
    let mut at = Cursor::start();
    for (window, sums) in windows {
        let is_next = counts.next(&mut at) == *sums;
        assert!(rt; is_next && at.signs() == &window[..usize::from(len)]);
    }
}

/// Counts windows in passes of these lengths in turn, and compares after each what is counted.
fn count_passes(
    rt: &impl Abort,
    counts: &mut CountTrie,
    signs: u16,
    lens: &[u8],
    seen: &[([Sign; 4], bool, Weight)],
    windows: &[([Sign; 4], Option<(u64, u64)>)],
) -> Result<(), Fail>
    requires signs { counts.old.signs ≡ signs }
    requires few { length seen.now < 100 }
{
    for len in lens {
        if *len < 1 || 4 < *len {
            return Err(Fail::new("a length of 1 to 4"));
        }
        count(counts, signs, *len, seen)?;
        compare(rt, counts, *len, windows);
    }
    Ok(())
}

/// Windows of a pass.
const SEEN: &[([Sign; 4], bool, Weight)] = &[
    ([3, 2, 4, 2], true, 3),
    ([2, 3, 4, 4], false, 2),
    ([3, 2, 4, 2], false, 1),
];

/// Those that are counted then, in the order of signs, and the end.
const WINDOWS: &[([Sign; 4], Option<(u64, u64)>)] = &[
    ([2, 3, 4, 4], Some((0, 2))),
    ([3, 2, 4, 2], Some((3, 1))),
    ([3, 2, 4, 2], None),
];

#[test]
fn counts_in_order_of_signs(rt: HostRuntime) -> Result<(), Fail> {
    let mut counts = CountTrie::new(rt.alloc(), 4)?;
    count_passes(&rt, &mut counts, 4, &[2, 4, 3, 2], SEEN, WINDOWS)
}

/// Windows of the last letters of a large table.
const SEEN_LAST: &[([Sign; 4], bool, Weight)] = &[
    ([2001, 2001, 1, 1], true, 1),
    ([2001, 2000, 1, 1], false, 2),
    ([1, 2001, 1, 1], true, 4),
    ([2001, 2001, 1, 1], true, 2),
];

/// Those that are counted then, in the order of signs, and the end.
const WINDOWS_LAST: &[([Sign; 4], Option<(u64, u64)>)] = &[
    ([1, 2001, 1, 1], Some((4, 0))),
    ([2001, 2000, 1, 1], Some((0, 2))),
    ([2001, 2001, 1, 1], Some((3, 0))),
    ([2001, 2001, 1, 1], None),
];

#[test]
fn counts_of_2000_letters(rt: HostRuntime) -> Result<(), Fail> {
    let mut counts = CountTrie::new(rt.alloc(), 2001)?;
    count_passes(&rt, &mut counts, 2001, &[2, 4, 2], SEEN_LAST, WINDOWS_LAST)
}
