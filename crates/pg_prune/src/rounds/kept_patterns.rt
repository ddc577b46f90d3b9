//! The patterns that stay.
ghost use Rattle.std.specs.Prelude.{◌≡◌, ◌<◌, length, All, IfOk};
ghost use Rattle.pg_patterns.specs.Inside.PatternMaps.{IsPatternMap};
ghost use Rattle.pg_prune.specs.Inside.rounds.Picks.{picked_entries};

use pg_patterns::{DottedSigns, PatternSet};
use std::alloc::{AllocError, Global};

/// The patterns of the entries with these numbers, which are in order.
pub(crate) fn kept_patterns(
    alloc: Global,
    patterns: &PatternSet,
    kept: &[usize],
) -> Result<PatternSet, AllocError>
    requires within { All (λ i. i < length patterns.now) kept.now }
    requires map { IsPatternMap (picked_entries patterns.now kept.now) }
    ensures { IfOk result (λ set. set ≡ picked_entries patterns.now kept.now) }
{
    let mut entries = Vec::new(alloc);
    'entries: for i in kept {
        let entry = patterns.entry(*i);
        entries.push((DottedSigns::new(entry.signs, entry.dot), entry.value))?;
    }
    Ok(PatternSet::from_entries(entries))
}
