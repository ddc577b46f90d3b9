//! Where the entries of a set of patterns stand.
ghost use Rattle.std.specs.Prelude.{◌≡◌, map, IfOk, All};
ghost use Rattle.pg_prune.specs.Positions.{positions_in_reach as positions_of};
ghost use Rattle.pg_prune.specs.Inside.positions.EntryPositions.{positions_of_entries};
ghost use Rattle.pg_prune.specs.Inside.positions.Trails.{IsStart, all_starts as all_starts_of};

use crate::positions::trail::{Start, Trail, all_starts};
use pg_dict::Dictionary;
use pg_patterns::PatternSet;
use pg_translate::Table;
use std::alloc::{AllocError, Global};

/// For each entry the numbers of the positions at which it stands, in rising order. The positions
/// are those in reach of all words, word by word, and are counted from 0.
///
/// Entries that follow one another share the starts of the signs with which both begin.
pub(crate) fn gather(
    alloc: Global,
    dictionary: &Dictionary,
    table: &Table,
    patterns: &PatternSet,
) -> Result<Vec<Vec<usize>>, AllocError>
    ensures { IfOk result (λ lists. map (λ l. l.items) lists.items
        ≡ positions_of_entries (positions_of table.now dictionary.now) patterns.now) }
{
    let all = all_starts(alloc, dictionary, table)?;
    gather_by(alloc, dictionary, table, patterns, all.as_slice())
}

/// What `gather` gives, where `all` are all starts.
fn gather_by(
    alloc: Global,
    dictionary: &Dictionary,
    table: &Table,
    patterns: &PatternSet,
    all: &[Start],
) -> Result<Vec<Vec<usize>>, AllocError>
    requires starts { all.now ≡ all_starts_of table.now dictionary.now }
    requires known { All (IsStart dictionary.now) all.now }
    ensures { IfOk result (λ lists. map (λ l. l.items) lists.items
        ≡ positions_of_entries (positions_of table.now dictionary.now) patterns.now) }
{
    let mut trail = Trail::new(alloc);
    let mut lists = Vec::new(alloc);
    'entries: for i in 0..patterns.len() {
        let entry = patterns.entry(i);
        lists.push(trail.positions(alloc, dictionary, table, all, entry.signs, entry.dot)?)?;
    }
    Ok(lists)
}
