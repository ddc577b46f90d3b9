//! The run over all levels.
ghost use Rattle.std.specs.Prelude.{◌≡◌, ◌≤◌, ◌<◌, ◌+◌, ◌*◌, [], true, IfOk, OnOk};
ghost use Rattle.pg_types.specs.declared.limits.TheConstants.{LEVEL_MAX};
ghost use Rattle.pg_select.specs.Sums.{totals as totals_by};
ghost use Rattle.pg_dict.specs.Inside.SoundWords.{SignsAtMost};
ghost use Rattle.pg_patterns.specs.Inside.PatternMaps.{SignsUpTo};
ghost use Rattle.pg_driver.specs.Inside.level.Levels.{DidRun};
ghost use Rattle.pg_driver.specs.Inside.records.SoundRecords.{IsSmall};
ghost use Rattle.pg_types.specs.Inside.Limits.{begun_before_run, level_passes};
ghost use Rattle.pg_driver.specs.Inside.records.RunAccounts.{TellsCells, account_from, account_of, begun_from, cells_from, families_from, patterns_from, run_from};

use crate::counting::WayToCount;
use crate::level::run_level;
use crate::pass_windows::PassWindows;
use crate::records::Records;
use crate::run::Run;
use crate::sums::totals;
use pg_dict::Dictionary;
use pg_select::Engine;
use pg_translate::Table;
use pg_types::{Params, Totals};
use std::alloc::{AllocError, Global};

/// Does the levels of the parameters, one after the other, and gives the totals at the end.
fn run_levels<E: Engine>(
    alloc: Global,
    engine: &mut E,
    dictionary: &Dictionary,
    table: &Table,
    params: &Params,
    records: &mut Records,
) -> Result<Totals, AllocError>
    requires hopeless { (E.meaning engine.old).hopeless ≡ [] }
    requires tidy { (E.meaning engine.old).tidy ≡ true }
    requires begun { (E.meaning engine.old).begun < begun_before_run }
    requires none { records.old ≡ record { passes = []; levels = []; chosen = 0; begun = 0 } }
    requires signs { SignsAtMost (E.meaning engine.old).signs dictionary.now }
    ensures run { OnOk result (DidRun table.now dictionary.now
        (run_from table.now dictionary.now params.now (E.meaning engine.old)) (E.meaning engine.old)
        (E.meaning engine.new) records.new) }
    ensures totals { IfOk result (λ totals. totals
        ≡ totals_by table.now dictionary.now (E.meaning engine.new).patterns) }
    ensures small { IfOk result IsSmall }
    ensures tidy { OnOk result ((E.meaning engine.new).tidy ≡ true) }
    ensures begun { OnOk result
        ((E.meaning engine.new).begun ≡ (E.meaning engine.old).begun + records.new.begun) }
    ensures few { OnOk result (records.new.begun ≤ LEVEL_MAX * level_passes) }
    ensures signs { (E.meaning engine.new).signs ≡ (E.meaning engine.old).signs }
{
    let greatest = engine.copy_patterns(alloc)?.largest();
    let first = params.start();
    let count = params.count();
    let mut counting = WayToCount::new(alloc);
    let _words = dictionary.len();
    let mut windows = PassWindows::new(alloc, dictionary.all_signs())?;
    let mut last = None;
    'levels: for i in 0..count {
        let number = first + i as u8;
        let after = run_level(
            alloc,
            engine,
            dictionary,
            table,
            params.level(i),
            number,
            greatest,
            &mut counting,
            &mut windows,
            records,
        )?;
        last = Some(after);
    }
    match last {
        Some(after) => Ok(after),
        // No level is run.
        None => Ok(totals(engine, dictionary, table)),
    }
}

/// Does the run of a dictionary from the patterns of an engine, level after level. A level has a
/// pass for each length and dot. A pass counts the windows at the positions that count, and then
/// chooses among the candidates (Liang's thesis of 1983, patgen 2.4). The final patterns are left
/// in the engine too.
///
/// A pass is skipped where one of the same level that is shorter by a sign, with the same dot or
/// the dot before, left no candidate or was skipped. It would have no candidate, so the run is the
/// one that does every pass.
///
/// The only error is a lack of memory. The engine's greatest sign is then as before, and nothing is
/// said of the rest of it.
pub fn generate<E: Engine>(
    alloc: Global,
    engine: &mut E,
    dictionary: &Dictionary,
    table: &Table,
    params: &Params,
) -> Result<Run, AllocError>
    requires hopeless { (E.meaning engine.old).hopeless ≡ [] }
    requires tidy { (E.meaning engine.old).tidy ≡ true }
    requires begun { (E.meaning engine.old).begun < begun_before_run }
    requires signs { SignsAtMost (E.meaning engine.old).signs dictionary.now }
    ensures patterns { IfOk result (λ r. r.patterns
        ≡ patterns_from table.now dictionary.now params.now (E.meaning engine.old)) }
    ensures pattern_signs { IfOk result
        (λ r. SignsUpTo (E.meaning engine.old).signs (E.meaning engine.old).patterns
        → SignsUpTo (E.meaning engine.old).signs r.patterns) }
    ensures account { IfOk result (λ r. account_of r
        ≡ account_from table.now dictionary.now params.now (E.meaning engine.old)) }
    ensures cells { IfOk result
        (TellsCells (cells_from table.now dictionary.now params.now (E.meaning engine.old))) }
    ensures begun { IfOk result (λ r. r.begun
        ≡ begun_from table.now dictionary.now params.now (E.meaning engine.old)) }
    ensures kept { IfOk result (λ r. (E.meaning engine.new).patterns ≡ r.patterns) }
    ensures families { OnOk result ((E.meaning engine.new).families
        ≡ families_from table.now dictionary.now params.now (E.meaning engine.old)) }
    ensures hopeless { OnOk result ((E.meaning engine.new).hopeless ≡ []) }
    ensures tidy { OnOk result ((E.meaning engine.new).tidy ≡ true) }
    ensures counted { IfOk result
        (λ r. (E.meaning engine.new).begun ≡ (E.meaning engine.old).begun + r.begun) }
    ensures few { OnOk result ((E.meaning engine.new).begun ≤ (E.meaning engine.old).begun
        + LEVEL_MAX * level_passes) }
    ensures signs { (E.meaning engine.new).signs ≡ (E.meaning engine.old).signs }
{
    let first_layout = engine.layout();
    let mut records = Records::new(alloc);
    let totals = run_levels(alloc, engine, dictionary, table, params, &mut records)?;
    let patterns = engine.copy_patterns(alloc)?;
    Ok(Run::new(patterns, records, totals, first_layout))
}
