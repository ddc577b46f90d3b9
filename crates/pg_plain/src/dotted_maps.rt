//! Maps from dotted strings, in their order.
ghost use Rattle.std.specs.Prelude.{◌≡◌, ℕ, Bool, true, T, List, OnOk, OnErr, IfOk};
ghost use Rattle.std.specs.List.{list_all};
ghost use Rattle.std.specs.FinMap.Entries.{put, is_sorted};
ghost use Rattle.pg_patterns.specs.DottedSigns.{dotted_cmp};
ghost use Rattle.pg_patterns.specs.Values.{raise, value_of};
ghost use Rattle.pg_patterns.specs.Inside.PatternMaps.{IsPatternMap, is_entry};

use crate::dotted_keys::DottedKey;
use pg_patterns::{DottedSigns, Entry, PatternSet};
use std::alloc::{AllocError, Global};
use std::collections::BTreeMap;

/// The value of a dotted string, 0 where it has none.
fn value_in(map: &BTreeMap<DottedKey, u8>, dotted: &DottedKey) -> u8
    ensures { result ≡ value_of map.now.entries dotted.now }
{
    match map.get(dotted) {
        Some(value) => *value,
        None => 0,
    }
}

/// Raises the value of `dotted` to `value`, where it is less.
pub fn raise_in(
    map: &mut BTreeMap<DottedKey, u8>,
    dotted: DottedKey,
    value: u8,
) -> Result<(), AllocError>
    ensures ok { OnOk result (map.new.entries ≡ raise map.old.entries dotted value) }
    ensures err { OnErr result (map.new.entries ≡ map.old.entries) }
    ensures kept { IsPatternMap map.old.entries → is_entry (dotted, value) ≡ true
        → IsPatternMap map.new.entries }
    ensures dotted { (good : List ℕ × ℕ → Bool) → list_all (λ e. good e.0) map.old.entries ≡ true
        → good dotted
        ≡ true → list_all (λ e. good e.0) map.new.entries ≡ true }
{
    let held = value_in(map, &dotted);
    map.insert(dotted, value.max(held))?;
    Ok(())
}

/// Puts `dotted` into a set.
pub fn put_in(set: &mut BTreeMap<DottedKey, ()>, dotted: DottedKey) -> Result<(), AllocError>
    ensures ok { OnOk result (set.new.entries ≡ put dotted_cmp dotted (tt {0}) set.old.entries) }
    ensures err { OnErr result (set.new.entries ≡ set.old.entries) }
    ensures sorted { T (is_sorted dotted_cmp set.new.entries) }
    ensures dotted { (good : List ℕ × ℕ → Bool) → list_all (λ e. good e.0) set.old.entries ≡ true
        → good dotted
        ≡ true → list_all (λ e. good e.0) set.new.entries ≡ true }
{
    set.insert(dotted, ())?;
    Ok(())
}

/// The map of a set of patterns.
pub fn map_of(alloc: Global, patterns: &PatternSet) -> Result<BTreeMap<DottedKey, u8>, AllocError>
    ensures value { IfOk result (λ map. map.entries ≡ patterns.now) }
    ensures kept { IfOk result (λ map. IsPatternMap map.entries) }
{
    let mut map = BTreeMap::new(alloc);
    for i in 0..patterns.len() {
        let Entry { signs, dot, value } = patterns.entry(i);
        map.insert(DottedKey::new(signs, dot), value)?;
    }
    Ok(map)
}

/// The set of the patterns of a map. It takes O(n), as the entries stand in order.
pub fn set_of(alloc: Global, map: &BTreeMap<DottedKey, u8>) -> Result<PatternSet, AllocError>
    requires { list_all is_entry map.now.entries ≡ true }
    ensures { IfOk result (λ patterns. patterns ≡ map.now.entries) }
{
    let mut entries = Vec::new(alloc);
    for (dotted, value) in map.iter() {
        entries.push((DottedSigns::new(dotted.signs(), dotted.dot()), *value))?;
    }
    Ok(PatternSet::from_entries(entries))
}
