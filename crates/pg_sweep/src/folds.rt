//! The runs of a set of parameters, each without the words of a fold.
ghost use Rattle.std.specs.Prelude.{◌≡◌, ◌≤◌, ◌<◌, ◌+◌, ◌*◌, IfOk};
ghost use Rattle.pg_translate.specs.Alphabets.{letters_of};
ghost use Rattle.pg_dict.specs.Inside.SoundWords.{SignsAtMost};
ghost use Rattle.pg_patterns.specs.Inside.PatternMaps.{SignsUpTo};
ghost use Rattle.pg_driver.specs.Inside.records.SoundRecords.{IsSmall};
ghost use Rattle.pg_sweep.specs.Sweeps.{fold_totals};
ghost use Rattle.pg_sweep.specs.Inside.Inputs.{terms, rest_totals, totals_of_first_folds, HasSharedSigns, IsSmallFor};

use crate::maker::Maker;
use pg_dict::Dictionary;
use pg_driver::{generate, totals};
use pg_patterns::PatternSet;
use pg_translate::Table;
use pg_types::{Params, Totals};
use std::alloc::{AllocError, Global};

/// What all runs of a sweep share.
#[derive(Clone, Copy)]
pub(crate) struct SharedInputs<'a> {
    pub dictionary: &'a Dictionary,
    /// The table by which the words were read.
    pub table: &'a Table,
    /// The patterns to start with.
    pub start: &'a PatternSet,
    /// How many folds there are.
    pub folds: u8,
}

/// The totals of the words that were left out, by the patterns that are selected from the rest.
fn totals_by_rest<K: Maker>(
    alloc: Global,
    maker: &K,
    inputs: &SharedInputs<'_>,
    params: &Params,
    rest: &Dictionary,
    left_out: &Dictionary,
) -> Result<Totals, AllocError>
    requires signs { HasSharedSigns inputs.now }
    requires rest { SignsAtMost (letters_of inputs.now.table.now + 1) rest.now }
    requires left_out { SignsAtMost (letters_of inputs.now.table.now + 1) left_out.now }
    ensures value { IfOk result
        (λ sums. sums ≡ rest_totals (terms inputs.now) params.now rest.now left_out.now) }
    ensures small { IfOk result IsSmall }
{
    let table = inputs.table;
    let mut engine = maker.make(alloc, table.letters() + 1, inputs.start)?;
    generate(alloc, &mut engine, rest, table, params)?;
    Ok(totals(&engine, left_out, table))
}

/// The totals of the words of a fold, by the patterns that are selected from all other words.
fn totals_of_fold<K: Maker>(
    alloc: Global,
    maker: &K,
    inputs: &SharedInputs<'_>,
    params: &Params,
    fold: u8,
) -> Result<Totals, AllocError>
    requires fold { fold < inputs.now.folds }
    requires signs { HasSharedSigns inputs.now }
    ensures value { IfOk result (λ sums. sums ≡ fold_totals (terms inputs.now) params.now fold) }
    ensures small { IfOk result IsSmall }
{
    let rest = inputs.dictionary.part(alloc, inputs.folds, fold, false)?;
    let left_out = inputs.dictionary.part(alloc, inputs.folds, fold, true)?;
    totals_by_rest(alloc, maker, inputs, params, &rest, &left_out)
}

/// The totals of the words that were left out, over all folds.
pub(crate) fn totals_of_set<K: Maker>(
    alloc: Global,
    maker: &K,
    inputs: &SharedInputs<'_>,
    params: &Params,
) -> Result<Totals, AllocError>
    requires signs { HasSharedSigns inputs.now }
    ensures value { IfOk result
        (λ sums. sums ≡ totals_of_first_folds (terms inputs.now) params.now inputs.now.folds) }
    ensures small { IfOk result (IsSmallFor inputs.now.folds) }
{
    let mut sums = Totals {
        good: 0,
        bad: 0,
        missed: 0,
    };
    'folds: for fold in 0..inputs.folds {
        let more = totals_of_fold(alloc, maker, inputs, params, fold)?;
        sums = Totals {
            good: sums.good + more.good,
            bad: sums.bad + more.bad,
            missed: sums.missed + more.missed,
        };
    }
    Ok(sums)
}
