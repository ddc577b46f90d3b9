//! The passes of a level.
ghost use Rattle.std.specs.Prelude.{ℕ, ◌≡◌, ◌≤◌, ◌<◌, ◌+◌, ◌-◌, ◌*◌, ◌∷◌, [], true, IfOk, OnOk};
ghost use Rattle.pg_types.specs.declared.limits.TheConstants.{FILE_MAX, LENGTH_MAX, LEVEL_MAX};
ghost use Rattle.pg_types.specs.Inside.Ranges.{IsLevel};
ghost use Rattle.pg_select.specs.Sums.{totals as totals_by};
ghost use Rattle.pg_dict.specs.Inside.SoundWords.{SignsAtMost};
ghost use Rattle.pg_select.specs.Inside.laws.Steps.{IsBelow};
ghost use Rattle.pg_driver.specs.Inside.counting.LevelCounting.{AreNumbersIn, HasEnded, HasSize, IsCounted, IsReady, MayHaveNumbers, TellsTotals};
ghost use Rattle.pg_dict.specs.Inside.Store.{all_signs};
ghost use Rattle.pg_starts.specs.Inside.Known.{AreKnown};
ghost use Rattle.pg_driver.specs.Inside.level.Levels.{AreRecorded, BeganAll, DidLevel, GoesOn, WillCount, all_made_by, point};
ghost use Rattle.pg_driver.specs.Inside.records.SoundRecords.{IsSmall, IsSoundPass};
ghost use Rattle.pg_types.specs.Inside.Limits.{begun_before_pass, length_passes, level_passes};
ghost use Rattle.pg_driver.specs.Inside.level.States.{DidPass, IsPass, made_by, state_of, state_at_end};
ghost use Rattle.pg_driver.specs.Inside.records.RunAccounts.{known_of};
ghost use Rattle.pg_driver.specs.Traces.{level_trace, passes_of};
ghost use Rattle.pg_driver.specs.Inside.level.Passes.{passes_of_length};

mod dots;
mod skippable;

use crate::choices::choose_all;
use crate::counting::WayToCount;
use crate::level::dots::dot_at;
use crate::level::skippable::Skippable;
use crate::pass_windows::PassWindows;
use crate::records::{PassRecord, Records};
use pg_dict::Dictionary;
use pg_select::{Engine, Pass};
use pg_translate::Table;
use pg_types::{LevelParams, Totals};
use std::alloc::{AllocError, Global};

/// Does a pass: counts its windows, decides what becomes of each, and then chooses among its
/// candidates.
fn run_pass<E: Engine>(
    engine: &mut E,
    dictionary: &Dictionary,
    table: &Table,
    params: &LevelParams,
    pass: Pass,
    counting: &mut WayToCount,
    windows: &mut PassWindows,
) -> Result<PassRecord, AllocError>
    requires ranges { IsPass pass }
    requires level { IsLevel params.now }
    requires begun { (E.meaning engine.old).begun < begun_before_pass }
    requires signs { SignsAtMost (E.meaning engine.old).signs dictionary.now }
    requires ready { IsReady table.now dictionary.now pass.level pass.len
        (known_of (E.meaning engine.old))
        counting.old }
    requires numbers { AreNumbersIn dictionary.now pass.len windows.old.counts.numbers counting.old }
    ensures numbers { OnOk result
        (AreNumbersIn dictionary.now pass.len windows.new.counts.numbers counting.new) }
    ensures done { IfOk result
        (DidPass table.now dictionary.now params.now pass (E.meaning engine.old)
        (E.meaning engine.new)) }
    ensures sound { IfOk result IsSoundPass }
    ensures few { IfOk result (λ r. r.chosen ≤ FILE_MAX) }
    ensures ready { OnOk result (IsReady table.now dictionary.now pass.level pass.len
        (known_of (E.meaning engine.new)) counting.new) }
    ensures counted { OnOk result (IsCounted counting.new) }
    ensures signs { (E.meaning engine.new).signs ≡ (E.meaning engine.old).signs }
{
    engine.begin_pass(pass.level, pass.len, pass.dot);
    let before = counting.count(engine, dictionary, table, pass, windows)?;
    let _words = dictionary.len();
    let signs = dictionary.all_signs();
    windows.decide(signs, params)?;
    let choices = choose_all(
        engine,
        signs,
        &windows.counts,
        params,
        &windows.fates,
        &windows.order,
        &mut windows.seen,
    )?;
    counting.after_choices(dictionary, params, pass, choices, windows);
    Ok(PassRecord {
        level: pass.level,
        len: pass.len,
        dot: pass.dot,
        before,
        candidates: choices.candidates,
        chosen: choices.chosen,
        hopeless: choices.hopeless,
        good: choices.good,
        bad: choices.bad,
        layout: engine.layout(),
    })
}

/// Numbers the windows of a length, unless they have numbers.
fn number_once(
    alloc: Global,
    dictionary: &Dictionary,
    len: u8,
    counting: &WayToCount,
    windows: &mut PassWindows,
) -> Result<(), AllocError>
    requires len { (1 ≤ len) × (len ≤ LENGTH_MAX) }
    requires size { HasSize dictionary.now counting.now }
    requires numbers { MayHaveNumbers dictionary.now len windows.old counting.now }
    ensures { OnOk result
        (AreNumbersIn dictionary.now len windows.new.counts.numbers counting.now) }
{
    if windows.numbered {
        return Ok(());
    }
    counting.number(alloc, dictionary, len, windows)?;
    windows.numbered = true;
    Ok(())
}

/// Does a pass and records it, or skips it where it can have no candidate.
fn run_or_skip<E: Engine>(
    alloc: Global,
    engine: &mut E,
    dictionary: &Dictionary,
    table: &Table,
    params: &LevelParams,
    pass: Pass,
    skippable: &mut Skippable,
    counting: &mut WayToCount,
    windows: &mut PassWindows,
    records: &mut Records,
) -> Result<(), AllocError>
    requires ranges { IsPass pass }
    requires level { IsLevel params.now }
    requires begun { (E.meaning engine.old).begun < begun_before_pass }
    requires few { records.old.begun < begun_before_pass }
    requires chosen { records.old.chosen + FILE_MAX < begun_before_pass }
    requires signs { SignsAtMost (E.meaning engine.old).signs dictionary.now }
    requires ready { IsReady table.now dictionary.now pass.level pass.len
        (known_of (E.meaning engine.old))
        counting.old }
    requires numbers { MayHaveNumbers dictionary.now pass.len windows.old counting.old }
    ensures numbers { OnOk result
        (MayHaveNumbers dictionary.now pass.len windows.new counting.new) }
    ensures ok { OnOk result (GoesOn table.now dictionary.now pass.level pass.len
        (made_by table.now dictionary.now params.now (E.meaning engine.old) pass ∷ [])
        (point (E.meaning engine.old) records.old skippable.old)
        (point (E.meaning engine.new) records.new skippable.new)) }
    ensures begun { OnOk result
        (BeganAll (E.meaning engine.old) (E.meaning engine.new) records.old records.new) }
    ensures few { OnOk result (records.new.begun ≤ records.old.begun + 1) }
    ensures chosen { OnOk result (records.new.chosen ≤ records.old.chosen + FILE_MAX) }
    ensures ready { OnOk result (IsReady table.now dictionary.now pass.level pass.len
        (known_of (E.meaning engine.new)) counting.new) }
    ensures here { skippable.new.here ≡ skippable.old.here }
    ensures counted { OnOk result
        (WillCount skippable.old counting.old → IsCounted counting.new) }
    ensures signs { (E.meaning engine.new).signs ≡ (E.meaning engine.old).signs }
{
    if skippable.is_skippable(pass.dot) {
        skippable.set(pass.dot, true);
        return Ok(());
    }
    number_once(alloc, dictionary, pass.len, counting, windows)?;
    let record = run_pass(engine, dictionary, table, params, pass, counting, windows)?;
    skippable.set(pass.dot, record.left_none());
    records.add_pass(record)?;
    Ok(())
}

/// Does the passes of a length, dot by dot, except those that can be skipped.
fn run_length<E: Engine>(
    alloc: Global,
    engine: &mut E,
    dictionary: &Dictionary,
    table: &Table,
    params: &LevelParams,
    number: u8,
    len: u8,
    skippable: &mut Skippable,
    counting: &mut WayToCount,
    windows: &mut PassWindows,
    records: &mut Records,
) -> Result<(), AllocError>
    requires level { IsLevel params.now }
    requires len { (1 ≤ len) × (len ≤ LENGTH_MAX) }
    requires number { (1 ≤ number) × (number ≤ LEVEL_MAX) }
    requires begun { (E.meaning engine.old).begun + length_passes < begun_before_pass }
    requires few { records.old.begun + length_passes < begun_before_pass }
    requires chosen { records.old.chosen + length_passes * FILE_MAX < begun_before_pass }
    requires signs { SignsAtMost (E.meaning engine.old).signs dictionary.now }
    requires ready { IsReady table.now dictionary.now number len
        (known_of (E.meaning engine.old))
        counting.old }
    requires counts { WillCount skippable.old counting.old }
    requires known { AreKnown (all_signs dictionary.now) windows.old.counts.numbers }
    ensures known { OnOk result
        (AreKnown (all_signs dictionary.now) windows.new.counts.numbers) }
    ensures ok { OnOk result (GoesOn table.now dictionary.now number len
        (all_made_by table.now dictionary.now params.now (E.meaning engine.old)
        (passes_of_length number len)) (point (E.meaning engine.old) records.old skippable.old)
        (point (E.meaning engine.new) records.new skippable.new)) }
    ensures begun { OnOk result
        (BeganAll (E.meaning engine.old) (E.meaning engine.new) records.old records.new) }
    ensures few { OnOk result (records.new.begun ≤ records.old.begun + length_passes) }
    ensures chosen { OnOk result
        (records.new.chosen ≤ records.old.chosen + length_passes * FILE_MAX) }
    ensures ready { OnOk result (IsReady table.now dictionary.now number len
        (known_of (E.meaning engine.new)) counting.new) }
    ensures counted { OnOk result (IsCounted counting.new) }
    ensures signs { (E.meaning engine.new).signs ≡ (E.meaning engine.old).signs }
{
    windows.numbered = false;
    let end = len + 1;
    'dots: for k in 0..end {
        let pass = Pass {
            level: number,
            len,
            dot: dot_at(len, k),
        };
        run_or_skip(
            alloc, engine, dictionary, table, params, pass, skippable, counting, windows, records,
        )?;
    }
    Ok(())
}

/// Does all passes of a level, length by length, except those that can be skipped.
fn run_lengths<E: Engine>(
    alloc: Global,
    engine: &mut E,
    dictionary: &Dictionary,
    table: &Table,
    params: &LevelParams,
    number: u8,
    counting: &mut WayToCount,
    windows: &mut PassWindows,
    records: &mut Records,
) -> Result<(), AllocError>
    requires level { IsLevel params.now }
    requires number { (1 ≤ number) × (number ≤ LEVEL_MAX) }
    requires begun { (E.meaning engine.old).begun + level_passes < begun_before_pass }
    requires few { records.old.begun + level_passes < begun_before_pass }
    requires chosen { records.old.chosen ≡ 0 }
    requires signs { SignsAtMost (E.meaning engine.old).signs dictionary.now }
    requires ready { (len : ℕ) → IsReady table.now dictionary.now number len
        (known_of (E.meaning engine.old)) counting.old }
    requires known { AreKnown (all_signs dictionary.now) windows.old.counts.numbers }
    ensures known { OnOk result
        (AreKnown (all_signs dictionary.now) windows.new.counts.numbers) }
    ensures state { OnOk result (state_of (E.meaning engine.new)
        ≡ state_at_end (E.meaning engine.old).signs (state_of (E.meaning engine.old))
        (all_made_by table.now dictionary.now params.now (E.meaning engine.old)
        (passes_of number params.now))) }
    ensures records { OnOk result
        (AreRecorded table.now dictionary.now (E.meaning engine.old).signs
        (E.meaning engine.old).families
        (all_made_by table.now dictionary.now params.now (E.meaning engine.old)
        (passes_of number params.now)) records.old records.new) }
    ensures begun { OnOk result
        (BeganAll (E.meaning engine.old) (E.meaning engine.new) records.old records.new) }
    ensures few { OnOk result (records.new.begun ≤ records.old.begun + level_passes) }
    ensures ready { OnOk result
        (TellsTotals table.now dictionary.now (E.meaning engine.new).patterns
        counting.new) }
    ensures ended { OnOk result (HasEnded table.now dictionary.now number
        (E.meaning engine.new).patterns counting.new) }
    ensures signs { (E.meaning engine.new).signs ≡ (E.meaning engine.old).signs }
{
    let mut skippable = Skippable::new();
    let end = params.pat_finish + 1;
    'lengths: for len in params.pat_start..end {
        run_length(
            alloc,
            engine,
            dictionary,
            table,
            params,
            number,
            len,
            &mut skippable,
            counting,
            windows,
            records,
        )?;
        skippable.next_length();
        counting.next_length()?;
    }
    Ok(())
}

/// Does a level: its passes, and then its end. Gives the totals at its end. `greatest` is the
/// greatest value of the starting patterns, and `counting` is the way to count at the end of the
/// level before.
pub fn run_level<E: Engine>(
    alloc: Global,
    engine: &mut E,
    dictionary: &Dictionary,
    table: &Table,
    params: &LevelParams,
    number: u8,
    greatest: u8,
    counting: &mut WayToCount,
    windows: &mut PassWindows,
    records: &mut Records,
) -> Result<Totals, AllocError>
    requires level { IsLevel params.now }
    requires number { (1 ≤ number) × (number ≤ LEVEL_MAX) }
    requires hopeless { (E.meaning engine.old).hopeless ≡ [] }
    requires begun { (E.meaning engine.old).begun + level_passes < begun_before_pass }
    requires few { records.old.begun + level_passes < begun_before_pass }
    requires chosen { records.old.chosen ≡ 0 }
    requires signs { SignsAtMost (E.meaning engine.old).signs dictionary.now }
    requires below { greatest < number → IsBelow number (E.meaning engine.old).patterns }
    requires ended { HasEnded table.now dictionary.now (number - 1)
        (E.meaning engine.old).patterns counting.old }
    requires known { AreKnown (all_signs dictionary.now) windows.old.counts.numbers }
    ensures known { OnOk result
        (AreKnown (all_signs dictionary.now) windows.new.counts.numbers) }
    ensures done { OnOk result (DidLevel table.now dictionary.now
        (level_trace table.now dictionary.now
        (E.meaning engine.old).patterns (number, params.now))
        (E.meaning engine.old) (E.meaning engine.new) records.old records.new) }
    ensures totals { IfOk result (λ after. after
        ≡ totals_by table.now dictionary.now (E.meaning engine.new).patterns) }
    ensures small { IfOk result IsSmall }
    ensures tidy { OnOk result ((E.meaning engine.new).tidy ≡ true) }
    ensures begun { OnOk result
        (BeganAll (E.meaning engine.old) (E.meaning engine.new) records.old records.new) }
    ensures few { OnOk result (records.new.begun ≤ records.old.begun + level_passes) }
    ensures chosen { OnOk result (records.new.chosen ≡ 0) }
    ensures ended { OnOk result (HasEnded table.now dictionary.now number
        (E.meaning engine.new).patterns counting.new) }
    ensures signs { (E.meaning engine.new).signs ≡ (E.meaning engine.old).signs }
{
    counting.begin_level(alloc, engine, dictionary, table, number, greatest)?;
    run_lengths(
        alloc, engine, dictionary, table, params, number, counting, windows, records,
    )?;
    engine.end_level()?;
    let after = counting.totals();
    records.end_level(number, after, engine.layout())?;
    Ok(after)
}
