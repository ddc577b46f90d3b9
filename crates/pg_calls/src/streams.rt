//! Puts into files and pipes, whose writes end early or fail.
use crate::folders::{enter_folder, holds, leave_folder};
use pg_outside::{HostSink, Sink};
use pg_told_disk::{Call, ScriptedFile};
use std::io::{ErrorKind, Write};
use std::test::Fail;
use std::{fs, io};

/// What is put.
const LINE: &[u8] = b"a1b\n";

/// How the writes of a put go, and what is written. The put is done where that is the whole line.
const PUTS: [(&[Call], &[u8]); 5] = [
    (&[], b"a1b\n"),
    (&[Call::Takes(1), Call::Takes(2)], b"a1b\n"),
    (
        &[Call::Interrupted, Call::Takes(3), Call::Interrupted],
        b"a1b\n",
    ),
    (&[Call::Takes(3), Call::Fails], b"a1b"),
    (&[Call::Takes(3), Call::Takes(0)], b"a1b"),
];

/// Whether a put of a line into S, whose writes go so, leaves these bytes, and goes well exactly
/// where they are the whole line.
fn puts_so(rt: &HostRuntime, calls: &[Call], bytes: &[u8]) -> io::Result<bool> {
    let mut sink = HostSink::new(ScriptedFile::new(fs::create(rt, "S")?, calls));
    let is_ok = sink.put(LINE).is_ok();
    Ok(is_ok == (bytes == LINE) && holds(rt, "S", bytes))
}

/// Whether one put stands behind the other.
fn puts_on(rt: &HostRuntime) -> io::Result<bool> {
    let mut sink = HostSink::new(fs::create(rt, "S")?);
    let both = [sink.put(b"done: ").is_ok(), sink.put(b"1\n").is_ok()];
    Ok(both == [true, true] && holds(rt, "S", b"done: 1\n"))
}

/// Whether a file that was opened only to be read takes no put.
fn is_kept(rt: &HostRuntime) -> io::Result<bool> {
    let mut read = HostSink::new(fs::open(rt, "S")?);
    Ok(read.put(b"2\n").is_err() && holds(rt, "S", b"done: 1\n"))
}

/// Whether each put goes as wanted.
fn are_puts_right(rt: &HostRuntime) -> io::Result<bool> {
    for (calls, bytes) in PUTS {
        if !puts_so(rt, calls, bytes)? {
            return Ok(false);
        }
    }
    Ok(true)
}

#[test]
fn puts_into_files(rt: HostRuntime) -> Result<(), Fail> {
    enter_folder(&rt, "puts_into_files")?;
    assert!(rt; are_puts_right(&rt)?);
    assert!(rt; puts_on(&rt)? && is_kept(&rt)?);
    leave_folder(&rt, "puts_into_files")?;
    Ok(())
}

/// Whether the last put failed for this reason.
fn has_reason(sink: &HostSink<impl Write + Drop>, kind: ErrorKind) -> bool {
    sink.reason().is_some_and(|error| error.kind() == kind)
}

/// Whether a device that is full takes no put, and says why.
fn is_full(rt: &HostRuntime) -> io::Result<bool> {
    let mut full = HostSink::new(fs::create(rt, "/dev/full")?);
    Ok(full.put(b"2\n").is_err() && has_reason(&full, ErrorKind::StorageFull))
}

/// Whether a put into a pipe goes well, and then one when it has no reader, which is the reason.
fn puts_without_reader(rt: &HostRuntime) -> io::Result<[bool; 3]> {
    let (reader, writer) = io::pipe(rt)?;
    let mut sink = HostSink::new(writer);
    let is_ok = sink.put(b"1\n").is_ok();
    drop(reader);
    let is_lost = sink.put(b"2\n").is_err();
    Ok([is_ok, is_lost, has_reason(&sink, ErrorKind::BrokenPipe)])
}

#[test]
fn a_full_sink_and_one_without_a_reader(rt: HostRuntime) -> Result<(), Fail> {
    assert!(rt; is_full(&rt)?);
    assert_eq!(rt; puts_without_reader(&rt)?, [true, true, true]);
    Ok(())
}
