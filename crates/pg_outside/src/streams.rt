//! Reading from a reader and writing to a writer, where a call that a signal interrupts goes on.
ghost use Rattle.std.specs.Prelude.{◌≡◌, ◌<◌, length, take, OnOk, OnErr, IfOk};
ghost use Rattle.std.specs.Io.{ReadsAtMost, WritesAtMost};
ghost use Rattle.std.specs.Io.KnownBytes.{Appends, Consumes, IsAtEnd, Keeps};
ghost use Rattle.pg_outside.specs.Inside.writers.Streams.{AppendsPart};

use std::io;
use std::io::{ErrorKind, Read, Write};

/// Reads some bytes. A read that a signal interrupts is made again.
pub(crate) fn read_some<R: Read>(from: &mut R, buffer: &mut [u8]) -> io::Result<usize>
    ensures bound { ReadsAtMost result buffer.new }
    ensures ok { IfOk result (λ count.
        Consumes (R.remaining from.old) (R.remaining from.new) (take count buffer.new)) }
    ensures end { IfOk result
        (λ count. count ≡ 0 → 0 < length buffer.old → IsAtEnd (R.remaining from.new)) }
    ensures err { OnErr result (Keeps (R.remaining from.old) (R.remaining from.new)) }
{
    for _ in 0..u64::MAX {
        match from.read(buffer) {
            Ok(count) => return Ok(count),
            Err(error) if error.kind() == ErrorKind::Interrupted => {}
            Err(error) => return Err(error),
        }
    }
    Err(io::Error::from(ErrorKind::Interrupted))
}

/// Writes some of the bytes. A write that a signal interrupts is made again.
pub(crate) fn write_some<W: Write>(to: &mut W, bytes: &[u8]) -> io::Result<usize>
    ensures bound { WritesAtMost result bytes.now }
    ensures ok { IfOk result
        (λ count. Appends (W.contents to.old) (W.contents to.new) (take count bytes.now)) }
    ensures err { OnErr result (Keeps (W.contents to.old) (W.contents to.new)) }
{
    for _ in 0..u64::MAX {
        match to.write(bytes) {
            Ok(count) => return Ok(count),
            Err(error) if error.kind() == ErrorKind::Interrupted => {}
            Err(error) => return Err(error),
        }
    }
    Err(io::Error::from(ErrorKind::Interrupted))
}

/// Writes all bytes, in as many writes as it takes. A write of no byte is an error.
pub(crate) fn write_bytes<W: Write>(to: &mut W, bytes: &[u8]) -> io::Result<()>
    ensures whole { OnOk result (Appends (W.contents to.old) (W.contents to.new) bytes.now) }
    ensures part { OnErr result (AppendsPart (W.contents to.old) (W.contents to.new) bytes.now) }
{
    let mut rest = bytes;
    while !rest.is_empty() {
        match write_some(to, rest) {
            Ok(0) => return Err(io::Error::from(ErrorKind::WriteZero)),
            Ok(count) => rest = &rest[count..],
            Err(error) => return Err(error),
        }
    }
    Ok(())
}
