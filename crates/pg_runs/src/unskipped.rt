//! The run of the driver beside a run that skips no pass, both over the packed engine.
ghost use Rattle.std.specs.Prelude.{◌+◌};
ghost use Rattle.pg_translate.specs.Alphabets.{letters_of};
ghost use Rattle.pg_dict.specs.Inside.SoundWords.{SignsAtMost};

use crate::plain::{PlainRun, run_plainly};
use crate::runs::{Inputs, packed_run, read_inputs};
use pg_driver::{PassRecord, Run};
use pg_packed::PackedEngine;
use pg_patterns::PatternSet;
use std::alloc::{AllocError, Global};
use std::process::Abort;
use std::test::Fail;

/// The run that skips no pass.
fn unskipped_run(alloc: Global, inputs: &Inputs) -> Result<PlainRun, Fail>
    requires { SignsAtMost (letters_of inputs.now.table + 1) inputs.now.dictionary }
{
    let (table, dictionary, params) = (&inputs.table, &inputs.dictionary, &inputs.params);
    let signs = table.letters() + 1;
    let mut engine = PackedEngine::new(alloc, signs, &PatternSet::empty(alloc))?;
    run_plainly(alloc, &mut engine, dictionary, table, params)
}

/// The passes that have a candidate.
fn with_candidates(alloc: Global, passes: &[PassRecord]) -> Result<Vec<PassRecord>, AllocError> {
    let mut found = Vec::new(alloc);
    for pass in passes {
        if pass.candidates > 0 {
            found.push(*pass)?;
        }
    }
    Ok(found)
}

/// Compares the levels, the totals and the number of passes begun with those of the run that skips
/// no pass. Fewer passes are needed than it has.
fn compare_counts(rt: &impl Abort, run: &Run, plain: &PlainRun) {
    let needed = plain.needed();
    assert_eq!(rt; run.levels(), plain.levels.as_slice());
    assert_eq!(rt; (run.totals(), run.begun()), (plain.totals, needed as u64));
    assert!(rt; needed < plain.passes.len());
}

/// Compares the run of the driver with the one that skips no pass, and its passes with those that
/// have a candidate.
fn compare(rt: &impl Abort, alloc: Global, run: &Run, plain: &PlainRun) -> Result<(), Fail> {
    compare_counts(rt, run, plain);
    let passes = with_candidates(alloc, plain.passes.as_slice())?;
    assert_eq!(rt; run.passes(), passes.as_slice());
    Ok(())
}

/// Does the run of the driver, and compares it with this one.
fn compare_with(
    rt: &impl Abort,
    alloc: Global,
    inputs: &Inputs,
    plain: &PlainRun,
) -> Result<(), Fail>
    requires { SignsAtMost (letters_of inputs.now.table + 1) inputs.now.dictionary }
{
    let run = packed_run(alloc, inputs)?;
    compare(rt, alloc, &run, plain)
}

/// Does both runs, and compares them.
fn compare_runs(rt: &impl Abort, alloc: Global, inputs: &Inputs) -> Result<(), Fail>
    requires { SignsAtMost (letters_of inputs.now.table + 1) inputs.now.dictionary }
{
    let plain = unskipped_run(alloc, inputs)?;
    compare_with(rt, alloc, inputs, &plain)
}

/// Two levels on 100,000 words, of which the driver skips passes.
#[test]
fn the_same_run_without_skipping(rt: HostRuntime) -> Result<(), Fail> {
    let inputs = read_inputs(rt.alloc(), 100_000, b"1 2 1 3 1 2 20 2 4 2 1 8")?;
    compare_runs(&rt, rt.alloc(), &inputs)
}
