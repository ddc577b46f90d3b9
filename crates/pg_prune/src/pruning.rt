//! The call that prunes.
ghost use Rattle.std.specs.Prelude.{◌≡◌, ◌+◌, List, map, IfOk};
ghost use Rattle.pg_translate.specs.Alphabets.{Alphabet, letters_of};
ghost use Rattle.pg_patterns.specs.Inside.PatternMaps.{SignsUpTo};
ghost use Rattle.pg_dict.specs.Word.{Word};
ghost use Rattle.pg_prune.specs.Positions.{positions_in_reach as positions_of};
ghost use Rattle.pg_prune.specs.Prunes.{pruning_of};
ghost use Rattle.pg_prune.specs.Inside.positions.PositionInReach.{need_at};
ghost use Rattle.pg_prune.specs.Inside.rounds.Picks.{HasAllEntries};
ghost use Rattle.pg_prune.specs.Inside.Prunings.{IsPruning};

use crate::positions::gather::gather;
use crate::positions::positions_in_reach;
use crate::pruned::{Need, Pruned};
use crate::rounds::holders::Holders;
use crate::rounds::kept_patterns::kept_patterns;
use crate::rounds::{NoObserver, RoundObserver, all_holders, all_rounds, needs};
use pg_dict::Dictionary;
use pg_patterns::PatternSet;
use pg_translate::Table;
use std::alloc::{AllocError, Global};

/// Takes the entries that change no break of the words out of `patterns`, in rounds. Finds for each
/// entry that stays the first position that needs it.
///
/// Values are compared at all positions in reach of the words that take part, also where a position
/// is marked don't-care. An entry goes where each of these values stays odd, or even, without it. A
/// round goes through the entries in the order of signs and then of dots, and the last round takes
/// out nothing. A round costs about the number of positions at which its entries stand. The only
/// error is a lack of memory.
pub fn prune(
    alloc: Global,
    dictionary: &Dictionary,
    table: &Table,
    patterns: &PatternSet,
) -> Result<Pruned, AllocError>
    requires known { SignsUpTo (letters_of table.now + 1) patterns.now }
    ensures { let n = letters_of table.now + 1 in IfOk result
        (IsPruning table.now n dictionary.now patterns.now) }
{
    prune_watched(alloc, dictionary, table, patterns, &NoObserver)
}

/// Does what `prune` does, and tells the observer of each round.
pub fn prune_watched<W: RoundObserver>(
    alloc: Global,
    dictionary: &Dictionary,
    table: &Table,
    patterns: &PatternSet,
    watch: &W,
) -> Result<Pruned, AllocError>
    requires known { SignsUpTo (letters_of table.now + 1) patterns.now }
    ensures { let n = letters_of table.now + 1 in IfOk result
        (IsPruning table.now n dictionary.now patterns.now) }
{
    find(alloc, dictionary, table, patterns, watch)
}

/// What `prune_watched` gives. This contract names the definition alone.
fn find<W: RoundObserver>(
    alloc: Global,
    dictionary: &Dictionary,
    table: &Table,
    patterns: &PatternSet,
    watch: &W,
) -> Result<Pruned, AllocError>
    ensures { IfOk result
        (λ found. found ≡ pruning_of table.now dictionary.now patterns.now) }
{
    let positions = positions_in_reach(alloc, dictionary, table)?;
    let lists = gather(alloc, dictionary, table, patterns)?;
    let standing = lists.as_slice();
    let mut all = all_holders(alloc, patterns, standing, positions.len())?;
    settle(
        alloc,
        patterns,
        standing,
        positions.as_slice(),
        all.as_mut_slice(),
        watch,
    )
}

/// Makes the rounds. `positions` are those of the words, and `standing` says at which of them each
/// entry stands. `holders` says what all entries give to each.
fn settle<W: RoundObserver>(
    alloc: Global,
    patterns: &PatternSet,
    standing: &[Vec<usize>],
    positions: &[Need],
    holders: &mut [Holders],
    watch: &W,
) -> Result<Pruned, AllocError>
    requires { (m : Alphabet) × ((words : List Word)
        × ((positions.now ≡ map need_at (positions_of m words))
        × HasAllEntries (positions_of m words) patterns.now (map (λ l. l.items) standing.now)
        holders.old)) }
    ensures { (m : Alphabet) (words : List Word)
        → positions.now ≡ map need_at (positions_of m words)
        → HasAllEntries (positions_of m words) patterns.now (map (λ l. l.items) standing.now)
        holders.old
        → IfOk result (λ found. found ≡ pruning_of m words patterns.now) }
{
    let count = patterns.len();
    let finished = all_rounds(alloc, patterns, standing, holders, watch)?;
    let kept = finished.kept.as_slice();
    let needs = needs(alloc, patterns, standing, positions, holders, kept)?;
    let removed = count - kept.len();
    let patterns = kept_patterns(alloc, patterns, kept)?;
    Ok(Pruned::new(patterns, needs, finished.count, removed as u64))
}
