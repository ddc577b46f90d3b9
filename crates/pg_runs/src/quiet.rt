//! A call over files and a sink that never fail.
ghost use Rattle.std.specs.Prelude.{◌≢◌};

use pg_outside::{QuietFiles, QuietSink};
use pg_top::{Status, run};
use std::alloc::{AllocError, Global};
use std::process::Abort;
use std::test::Fail;

/// The files of a run whose three passes find the one pattern that two words need.
pub(crate) const INPUTS: &[(&str, &[u8])] = &[
    ("T", b" 1 1\n a\n b\n c\n"),
    ("A", b"1 1 2 2 1 1 2"),
    ("P", b""),
    ("D", b"ab-c\nab-a\n"),
];

/// What the call prints.
const PRINTED: &[u8] =
    b"done: 1 patterns, 2 good, 0 bad, 0 missed\nwork: 3 passes, 5 taken, top 9, 1 tails\n";

/// Adds the files.
fn add_inputs(files: &mut QuietFiles) -> Result<(), AllocError> {
    for (name, bytes) in INPUTS {
        files.add(name, bytes, 0)?;
    }
    Ok(())
}

/// The files.
fn quiet_files(alloc: Global) -> Result<QuietFiles, AllocError> {
    let mut files = QuietFiles::new(alloc);
    add_inputs(&mut files)?;
    Ok(files)
}

/// The arguments of a line, with a blank between two.
pub(crate) fn words(alloc: Global, line: &str) -> Result<Vec<String>, AllocError> {
    let mut words = Vec::new(alloc);
    for word in line.split(' ') {
        words.push(String::from_str(alloc, word)?)?;
    }
    Ok(words)
}

/// Compares what the call wrote and printed.
fn compare(rt: &impl Abort, files: &QuietFiles, out: &QuietSink) {
    assert_eq!(rt; files.bytes("O"), Some(b"ab1\n".as_slice()));
    assert_eq!(rt; out.bytes(), Some(PRINTED));
}

/// Does what the arguments ask for, over files and a sink that never fail. The answer is never a
/// fault.
fn run_quietly(
    alloc: Global,
    words: &[String],
    files: &mut QuietFiles,
    out: &mut QuietSink,
) -> Status
    ensures { result ≢ Status.Fault }
{
    run(alloc, words, files, out)
}

/// The answer of the call over these files and this sink.
fn answer(
    alloc: Global,
    files: &mut QuietFiles,
    out: &mut QuietSink,
) -> Result<Status, AllocError> {
    let words = words(alloc, "generate D P O T A R")?;
    Ok(run_quietly(alloc, &words, files, out))
}

/// Does the call over these files and this sink, and compares what comes of it.
fn run_and_compare(
    rt: &impl Abort,
    alloc: Global,
    files: &mut QuietFiles,
    out: &mut QuietSink,
) -> Result<(), Fail> {
    assert_eq!(rt; answer(alloc, files, out)?, Status::Done);
    compare(rt, files, out);
    Ok(())
}

#[test]
fn files_that_never_fail(rt: HostRuntime) -> Result<(), Fail> {
    let mut files = quiet_files(rt.alloc())?;
    let mut out = QuietSink::new(rt.alloc(), 200)?;
    run_and_compare(&rt, rt.alloc(), &mut files, &mut out)
}
