//! Lists of entries in the order of their dotted strings.
ghost use Rattle.std.specs.Prelude.{◌≡◌, ◌≤◌, true, false, T, drop, length, All, OnOk, OnErr};
ghost use Rattle.std.specs.Bool.{OnTrue};
ghost use Rattle.std.specs.FinMap.Entries.{is_sorted};
ghost use Rattle.std.specs.List.{list_all};
ghost use Rattle.std.specs.List.Sorted.{IsPartitionPoint};
ghost use Rattle.pg_patterns.specs.DottedSigns.{dotted_cmp};
ghost use Rattle.pg_patterns.specs.Values.{map_of_entries, raise};
ghost use Rattle.pg_patterns.specs.Inside.PatternMaps.{IsPatternMap, is_entry};
ghost use Rattle.pg_patterns.specs.Inside.Search.{is_after, begins_with};

use crate::dotted_signs::DottedSigns;
use std::alloc::AllocError;

/// How many entries stand before a dotted string. Where it comes after all, one comparison tells.
fn seek(entries: &[(DottedSigns, u8)], dotted: &DottedSigns) -> usize
    requires { T (is_sorted dotted_cmp entries.now) }
    ensures bound { result ≤ length entries.now }
    ensures point { IsPartitionPoint (λ e. is_after dotted.now e ≡ true)
        (λ e. is_after dotted.now e ≡ false) entries.now result }
{
    if comes_last(entries, dotted) {
        return entries.len();
    }
    entries.partition_point(|entry| *dotted > entry.0)
}

/// Whether there is a last entry, and a dotted string comes after it, and so after each.
fn comes_last(entries: &[(DottedSigns, u8)], dotted: &DottedSigns) -> bool
    requires { T (is_sorted dotted_cmp entries.now) }
    ensures { OnTrue result (All (λ e. is_after dotted.now e ≡ true) entries.now) }
{
    !entries.is_empty() && *dotted > entries[entries.len() - 1].0
}

/// Whether the entry at `at` is there, and is that of a dotted string.
pub fn is_entry_of(entries: &[(DottedSigns, u8)], at: usize, dotted: &DottedSigns) -> bool
    ensures { result ≡ begins_with dotted.now (drop at entries.now) }
{
    at < entries.len() && *dotted == entries[at].0
}

/// Raises the value of a dotted string to at least `value`.
pub fn raise_in(
    entries: &mut Vec<(DottedSigns, u8)>,
    dotted: DottedSigns,
    value: u8,
) -> Result<(), AllocError>
    requires { T (is_sorted dotted_cmp entries.old.items) }
    ensures ok { OnOk result (entries.new.items ≡ raise entries.old.items dotted value) }
    ensures err { OnErr result (entries.new.items ≡ entries.old.items) }
{
    let at = seek(entries.as_slice(), &dotted);
    if is_entry_of(entries.as_slice(), at, &dotted) {
        let held = entries[at].1;
        entries[at].1 = held.max(value);
        return Ok(());
    }
    entries.insert(at, (dotted, value))?;
    Ok(())
}

/// Joins the entries of one dotted string by the greatest value: they are sorted where they stand,
/// by dotted strings and falling values, and the first of each is kept.
pub fn join(entries: &mut Vec<(DottedSigns, u8)>)
    requires { list_all is_entry entries.old.items ≡ true }
    ensures { IsPatternMap entries.new.items
        × (entries.new.items ≡ map_of_entries entries.old.items) }
{
    entries.sort_unstable_by(|a, b| a.0.cmp(&b.0).then(b.1.cmp(&a.1)));
    entries.dedup_by(|later, kept| later.0 == kept.0);
}
