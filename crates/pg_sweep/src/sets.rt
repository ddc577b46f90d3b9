//! The sweep over sets of parameters.
ghost use Rattle.std.specs.Prelude.{◌≡◌, ◌≤◌, ◌+◌, ◌*◌, length, map, IfOk};
ghost use Rattle.pg_translate.specs.Alphabets.{letters_of};
ghost use Rattle.pg_dict.specs.Inside.SoundWords.{SignsAtMost};
ghost use Rattle.pg_patterns.specs.Inside.PatternMaps.{SignsUpTo};
ghost use Rattle.pg_types.specs.declared.limits.TheConstants.{FOLDS_MAX, FOLDS_MIN, PRICE_MAX, SETS_MAX};
ghost use Rattle.pg_sweep.specs.Sweeps.{set_row};
ghost use Rattle.pg_sweep.specs.Promises.{costs_of};
ghost use Rattle.pg_sweep.specs.Winners.{winner_of};
ghost use Rattle.pg_sweep.specs.Inside.Inputs.{IsSmallFor};

use crate::folds::{SharedInputs, totals_of_set};
use crate::found::Sweep;
use crate::maker::Maker;
use crate::rows::SweepRow;
use pg_dict::Dictionary;
use pg_patterns::PatternSet;
use pg_translate::Table;
use pg_types::{Params, Totals};
use std::alloc::{AllocError, Global};

/// The totals with what they cost.
fn with_cost(totals: Totals, bad: u32, missed: u32) -> SweepRow
    requires small { IsSmallFor FOLDS_MAX totals }
    requires prices { (bad ≤ PRICE_MAX) × (missed ≤ PRICE_MAX) }
    ensures { result
        ≡ record { totals = totals; cost = bad * totals.bad + missed * totals.missed } }
{
    SweepRow {
        totals,
        cost: u64::from(bad) * totals.bad + u64::from(missed) * totals.missed,
    }
}

/// Weighs each set of parameters: for each fold it selects patterns from all words but those of the
/// fold, and adds up the totals of the words that were left out. There are 1 to
/// [`SETS_MAX`](pg_types::SETS_MAX) sets, and [`FOLDS_MIN`](pg_types::FOLDS_MIN) to
/// [`FOLDS_MAX`](pg_types::FOLDS_MAX) folds. `bad` and `missed` are what a unit of each costs, 1 to
/// [`PRICE_MAX`](pg_types::PRICE_MAX).
///
/// One engine is alive at a time. The only error is a lack of memory.
pub fn sweep<K: Maker>(
    alloc: Global,
    maker: &K,
    dictionary: &Dictionary,
    table: &Table,
    start: &PatternSet,
    sets: &[Params],
    folds: u8,
    bad: u32,
    missed: u32,
) -> Result<Sweep, AllocError>
    requires sets { (1 ≤ length sets.now) × (length sets.now ≤ SETS_MAX) }
    requires folds { (FOLDS_MIN ≤ folds) × (folds ≤ FOLDS_MAX) }
    requires bad { (1 ≤ bad) × (bad ≤ PRICE_MAX) }
    requires missed { (1 ≤ missed) × (missed ≤ PRICE_MAX) }
    requires signs { SignsAtMost (letters_of table.now + 1) dictionary.now }
    requires known { SignsUpTo (letters_of table.now + 1) start.now }
    ensures rows { IfOk result (λ sweep. sweep.rows ≡ map (set_row
        (record { table = table.now; words = dictionary.now; start = start.now; folds = folds })
        bad missed) sets.now) }
    ensures winner { IfOk result (λ sweep. sweep.winner ≡ winner_of (costs_of sweep.rows)) }
{
    let inputs = SharedInputs {
        dictionary,
        table,
        start,
        folds,
    };
    let mut rows = Vec::new(alloc);
    'sets: for i in 0..sets.len() {
        let totals = totals_of_set(alloc, maker, &inputs, &sets[i])?;
        rows.push(with_cost(totals, bad, missed))?;
    }
    Ok(Sweep::new(rows))
}
