//! The same run from both engines.
ghost use Rattle.std.specs.Prelude.{◌+◌};
ghost use Rattle.pg_translate.specs.Alphabets.{letters_of};
ghost use Rattle.pg_dict.specs.Inside.SoundWords.{SignsAtMost};

use crate::runs::{Inputs, packed_run, plain_run, read_inputs};
use pg_driver::{PassRecord, Run};
use pg_patterns::PatternSet;
use std::alloc::Global;
use std::process::Abort;
use std::test::Fail;

/// Whether records of passes are the same but for their layouts.
fn are_same_passes(packed: &[PassRecord], plain: &[PassRecord]) -> bool {
    for (packed, plain) in packed.iter().zip(plain) {
        let alone = PassRecord {
            layout: None,
            ..*packed
        };
        if alone != *plain {
            return false;
        }
    }
    true
}

/// Compares patterns.
fn compare_patterns(rt: &impl Abort, packed: &PatternSet, plain: &PatternSet) {
    assert_eq!(rt; packed.len(), plain.len());
    for i in 0..packed.len().min(plain.len()) {
        let (one, other) = (packed.entry(i), plain.entry(i));
        let is_same = one.signs == other.signs && one.dot == other.dot && one.value == other.value;
        assert!(rt; is_same, "the entry {i}");
    }
}

/// Compares runs without their layouts.
fn compare(rt: &impl Abort, packed: &Run, plain: &Run) {
    compare_patterns(rt, packed.patterns(), plain.patterns());
    assert_eq!(rt; packed.passes().len(), plain.passes().len());
    assert!(rt; are_same_passes(packed.passes(), plain.passes()));
    assert_eq!(rt;
        (packed.totals(), packed.begun()),
        (plain.totals(), plain.begun())
    );
}

/// Does the run over the packed engine, and compares it with this one.
fn compare_with(rt: &impl Abort, alloc: Global, inputs: &Inputs, plain: &Run) -> Result<(), Fail>
    requires { SignsAtMost (letters_of inputs.now.table + 1) inputs.now.dictionary }
{
    let packed = packed_run(alloc, inputs)?;
    compare(rt, &packed, plain);
    Ok(())
}

/// Does the run over both engines, and compares them.
fn compare_engines(rt: &impl Abort, alloc: Global, inputs: &Inputs) -> Result<(), Fail>
    requires { SignsAtMost (letters_of inputs.now.table + 1) inputs.now.dictionary }
{
    let plain = plain_run(alloc, inputs)?;
    compare_with(rt, alloc, inputs, &plain)
}

/// The run of 2,000 words over both engines: the same patterns, records of passes, totals and
/// number of passes begun.
#[test]
fn the_same_run_from_both_engines(rt: HostRuntime) -> Result<(), Fail> {
    let inputs = read_inputs(rt.alloc(), 2_000, b"1 2 1 3 1 2 20 2 4 2 1 8")?;
    compare_engines(&rt, rt.alloc(), &inputs)
}
