//! `sweep`: the cheapest of several parameter files.
ghost use Rattle.std.specs.Prelude.{◌≤◌, length};
ghost use Rattle.pg_words.specs.Inside.CommandRequests.{sweep_of, KeepsSweepLimits};
ghost use Rattle.pg_steps.specs.Inside.Steps.{Begins};
ghost use Rattle.pg_steps.specs.Inside.Texts.{ending_of};
ghost use Rattle.pg_top.specs.Inside.Requests.{sweep_plan};

mod engines;
mod inputs;
mod outputs;
mod sets;

use crate::sweep::inputs::read_sweep;
use crate::sweep::outputs::make_sweep;
use pg_outside::Files;
use pg_patterns::PatternSet;
use pg_steps::{BuiltTexts, Stop};
use pg_types::Params;
use pg_watch::Watch;
use pg_words::SweepWords;
use std::alloc::Global;

/// Tells the observer of the set whose first level is the lowest among those that run a level. If
/// this level is above the values of the starting patterns, so is the first level of every set.
fn tell_lowest<W: Watch>(name: &str, sets: &[Params], start: &PatternSet, watch: &W)
    requires { 1 ≤ length sets.now }
{
    let mut lowest = &sets[0];
    for params in sets {
        if params.count() > 0 && (lowest.count() == 0 || params.start() < lowest.start()) {
            lowest = params;
        }
    }
    watch.selects(name, lowest, start);
}

/// Reads what `sweep` reads, and builds all that it writes and prints.
pub fn sweep_files<'a, F: Files, W: Watch>(
    alloc: Global,
    words: &SweepWords<'a>,
    files: &mut F,
    watch: &W,
) -> Result<BuiltTexts<'a>, Stop<'a>>
    requires { KeepsSweepLimits words.now }
    ensures { Begins (sweep_plan (sweep_of words.now)) result ending_of
        (F.shown files.old) (F.shown files.new) }
{
    let inputs = read_sweep(alloc, words, files, watch)?;
    tell_lowest(words.patterns, &inputs.sets, &inputs.start, watch);
    let outputs = make_sweep(alloc, words, &inputs, watch);
    drop(inputs);
    Ok(outputs?)
}
