//! Reads and writes of real files whose calls end early or fail.
use crate::folders::{enter_folder, holds, is_new_file_left, leave_folder};
use crate::outcomes::outcomes;
use pg_outside::ReadError;
use pg_told_disk::{Broken, Call, ScriptedSystem};
use std::test::Fail;
use std::{fs, io};

/// What is written.
const LINE: &[u8] = b"a1b\n";

/// How the calls that read D or write O go, and the step that fails besides. Then how the read goes
/// and what it gives, and what O holds after the write.
type Row = (
    &'static [Call],
    Broken,
    Result<(), ReadError>,
    &'static [u8],
    &'static [u8],
);

/// A read of no byte is the end of a file, and a write of none is a fault.
const ROWS: [Row; 10] = [
    (&[], Broken::Nothing, Ok(()), b"a-b\n", LINE),
    (
        &[Call::Takes(1), Call::Takes(2)],
        Broken::Nothing,
        Ok(()),
        b"a-b\n",
        LINE,
    ),
    (
        &[Call::Interrupted, Call::Takes(3), Call::Interrupted],
        Broken::Nothing,
        Ok(()),
        b"a-b\n",
        LINE,
    ),
    (
        &[Call::Takes(4), Call::Interrupted, Call::Fails],
        Broken::Nothing,
        Err(ReadError::Failed),
        b"a-b\n",
        LINE,
    ),
    (
        &[Call::Takes(3), Call::Fails],
        Broken::Nothing,
        Err(ReadError::Failed),
        b"a-b",
        b"old",
    ),
    (
        &[Call::Fails],
        Broken::Nothing,
        Err(ReadError::Failed),
        b"",
        b"old",
    ),
    (
        &[Call::Takes(3), Call::Takes(0)],
        Broken::Nothing,
        Ok(()),
        b"a-b",
        b"old",
    ),
    (&[], Broken::Permissions, Ok(()), b"a-b\n", b"old"),
    (&[], Broken::Sync, Ok(()), b"a-b\n", b"old"),
    (&[], Broken::Rename, Ok(()), b"a-b\n", b"old"),
];

/// Whether a read of D and a write of O go as a row says. The write is to leave no new file, and to
/// go well exactly where O then holds the whole line.
fn goes_so(rt: &HostRuntime, row: &Row) -> bool {
    let (calls, broken, wanted, given, left) = *row;
    let system = ScriptedSystem::with_calls(rt, calls, broken);
    let both = outcomes(rt.alloc(), system, ("D", 5, wanted, given), "O", LINE);
    both == [true, left == LINE] && holds(rt, "O", left) && !is_new_file_left(rt)
}

/// Whether each row goes so, where O holds old bytes before.
fn go_all_so(rt: &HostRuntime) -> io::Result<bool> {
    for row in ROWS.iter() {
        fs::write(rt, "O", b"old")?;
        if !goes_so(rt, row) {
            return Ok(false);
        }
    }
    Ok(true)
}

#[test]
fn steps_that_end_early(rt: HostRuntime) -> Result<(), Fail> {
    enter_folder(&rt, "steps_that_end_early")?;
    fs::write(&rt, "D", b"a-b\n")?;
    assert!(rt; go_all_so(&rt)?);
    leave_folder(&rt, "steps_that_end_early")?;
    Ok(())
}
