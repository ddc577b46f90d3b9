//! What `sweep` reads.
ghost use Rattle.std.specs.Prelude.{◌≤◌, List, length, IfOk};
ghost use Rattle.pg_plans.specs.Plans.{Plan};
ghost use Rattle.pg_sweep.specs.Sweeps.{Terms};
ghost use Rattle.pg_types.specs.Parameters.{Parameters};
ghost use Rattle.pg_words.specs.Inside.CommandRequests.{sweep_of, KeepsSweepLimits};
ghost use Rattle.pg_types.specs.declared.limits.TheConstants.{SETS_MAX};
ghost use Rattle.pg_steps.specs.Inside.Steps.{Begins};
ghost use Rattle.pg_top.specs.Inside.Swept.{sweep_from, terms_of, HasSweepSigns};

use crate::sweep::sets::read_sets;
use pg_dict::Dictionary;
use pg_outside::Files;
use pg_patterns::PatternSet;
use pg_steps::{Stop, read_dictionary, read_patterns, read_table};
use pg_translate::Table;
use pg_types::Params;
use pg_watch::Watch;
use pg_words::SweepWords;
use std::alloc::Global;

/// What `sweep` reads.
#[derive(Drop)]
pub struct SweepInputs {
    /// The table of the translate file.
    pub table: Table,
    /// The sets of parameters.
    pub sets: Vec<Params>,
    /// The starting patterns.
    pub start: PatternSet,
    pub dictionary: Dictionary,
}

/// Reads what `sweep` reads, in its order, up to the first refusal or fault.
pub fn read_sweep<'a, F: Files, W: Watch>(
    alloc: Global,
    words: &SweepWords<'a>,
    files: &mut F,
    watch: &W,
) -> Result<SweepInputs, Stop<'a>>
    requires { KeepsSweepLimits words.now }
    ensures read { (next : Terms → List Parameters → Plan)
        → Begins (sweep_from (sweep_of words.now) next) result
        (λ inputs. next (terms_of words.now.folds inputs) inputs.sets.items)
        (F.shown files.old) (F.shown files.new) }
    ensures signs { IfOk result HasSweepSigns }
    ensures count { IfOk result
        (λ inputs. (1 ≤ length inputs.sets.items) × (length inputs.sets.items ≤ SETS_MAX)) }
{
    let table = read_table(alloc, words.translate, files, watch)?;
    let sets = read_sets(alloc, words.params, files, watch)?;
    let start = read_patterns(alloc, &table, words.patterns, files, watch)?;
    let dictionary = read_dictionary(alloc, &table, words.dict, files, watch)?;
    Ok(SweepInputs {
        table,
        sets,
        start,
        dictionary,
    })
}
