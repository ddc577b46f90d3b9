//! The status of the program over a system whose arguments are given.
use pg_main::run_arguments;
use pg_told_disk::{Broken, ScriptedSystem};
use std::process::ExitCode;
use std::test::Fail;
use std::{fs, io};

/// The arguments of a program behind its name, and its status. The files are real ones: `A` has
/// parameters, and `O` a pattern where there is to be none.
const PROGRAMS: &[(&[&[u8]], u8)] = &[
    (&[b"sample", b"1", b"10"], 0),
    (
        &[
            b"audit",
            b"/dev/null",
            b"/dev/null",
            b"O",
            b"/dev/null",
            b"A",
            b"R",
        ],
        1,
    ),
    (&[b"sample", b"1"], 2),
    (
        &[
            b"generate",
            b"/dev/null",
            b"/dev/null",
            b"N",
            b"/dev/null",
            b"/dev/null",
            b"R",
        ],
        3,
    ),
    (&[b"totals", b"missing", b"/dev/null", b"T"], 4),
    (&[b"sample", b"1", b"\xFF"], 6),
];

/// Whether the program ends with this status where these are its arguments.
fn ends_so(rt: &HostRuntime, words: &[&[u8]], status: u8) -> io::Result<bool> {
    let system = ScriptedSystem {
        system: rt,
        words,
        calls: &[],
        broken: Broken::Nothing,
    };
    let nowhere = fs::create(rt, "/dev/null")?;
    Ok(run_arguments(&system, io::sink(), nowhere) == ExitCode::from(status))
}

#[test]
fn the_status_of_the_program(rt: HostRuntime) -> Result<(), Fail> {
    fs::write(&rt, "A", b"1 1 1 1 1 1 1\n")?;
    fs::write(&rt, "O", b"a1b\n")?;
    for (words, status) in PROGRAMS {
        assert!(rt; ends_so(&rt, words, *status)?);
    }
    Ok(())
}
