//! What `sweep` writes and prints.
ghost use Rattle.std.specs.Prelude.{◌≡◌, [], length, IfOk, ◌≤◌, ◌∷◌};
ghost use Rattle.pg_types.specs.Lines.{lines};
ghost use Rattle.pg_top.specs.Sweeping.{winner_line as winner_line_of};
ghost use Rattle.pg_sweep.specs.Files.{sweep_file};
ghost use Rattle.pg_words.specs.Inside.CommandRequests.{sweep_of, KeepsSweepLimits};
ghost use Rattle.pg_types.specs.declared.limits.TheConstants.{SETS_MAX};
ghost use Rattle.pg_steps.specs.Inside.Texts.{ending_of, writing_of};
ghost use Rattle.pg_top.specs.Inside.Swept.{terms_of, HasSweepSigns, line_of_sweep, sets_ended};

use crate::sweep::engines::WatchedMaker;
use crate::sweep::inputs::SweepInputs;
use pg_steps::{BuiltTexts, push_file};
use pg_sweep::{Sweep, sweep, sweep_text};
use pg_types::push_number;
use pg_watch::Watch;
use pg_words::SweepWords;
use std::alloc::{AllocError, Global};

/// The line where `sweep` is done: the number of the cheapest set of parameters, and what it costs.
pub fn winner_line(alloc: Global, winner: usize, cost: u64) -> Result<Vec<u8>, AllocError>
    ensures { IfOk result (λ line. line.items ≡ winner_line_of winner cost) }
{
    let mut line = Vec::new(alloc);
    push_number(&mut line, b"winner: set ", winner as u64)?;
    push_number(&mut line, b", cost ", cost)?;
    line.extend_from_slice(b"\n")?;
    Ok(line)
}

/// The line of a sweep: which set wins, and what it costs.
fn found_line(alloc: Global, found: &Sweep) -> Result<Vec<u8>, AllocError>
    ensures { IfOk result (λ line. line.items ≡ line_of_sweep found.now) }
{
    let winner = found.winner();
    winner_line(alloc, winner, found.rows()[winner - 1].cost)
}

/// What `sweep` writes and prints, where the sweep comes to this.
fn write_sweep<'a>(
    alloc: Global,
    words: &SweepWords<'a>,
    found: &Sweep,
) -> Result<BuiltTexts<'a>, AllocError>
    ensures files { IfOk result (λ made.
        writing_of made.files.items
        ≡ (words.now.output.now, sweep_file words.now.folds found.now.rows found.now.winner)
        ∷ []) }
    ensures lines { IfOk result (λ made. made.lines.items ≡ line_of_sweep found.now) }
{
    let text = sweep_text(alloc, words.folds, found)?;
    let lines = found_line(alloc, found)?;
    let mut files = Vec::new(alloc);
    push_file(&mut files, words.output, text)?;
    Ok(BuiltTexts { files, lines })
}

/// Does the sweep, and builds all that `sweep` writes and prints.
pub fn make_sweep<'a, W: Watch>(
    alloc: Global,
    words: &SweepWords<'a>,
    inputs: &SweepInputs,
    watch: &W,
) -> Result<BuiltTexts<'a>, AllocError>
    requires within { KeepsSweepLimits words.now }
    requires signs { HasSweepSigns inputs.now }
    requires count { (1 ≤ length inputs.now.sets.items)
        × (length inputs.now.sets.items ≤ SETS_MAX) }
    ensures { IfOk result (λ made. ending_of made ≡ sets_ended (sweep_of words.now)
        (terms_of words.now.folds inputs.now) inputs.now.sets.items) }
{
    let maker = WatchedMaker::new(&inputs.sets, words.folds, watch);
    let found = sweep(
        alloc,
        &maker,
        &inputs.dictionary,
        &inputs.table,
        &inputs.start,
        &inputs.sets,
        words.folds,
        words.bad,
        words.missed,
    )?;
    write_sweep(alloc, words, &found)
}
