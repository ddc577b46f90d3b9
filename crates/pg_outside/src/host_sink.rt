//! The adapter over standard output.
ghost use Rattle.std.specs.Prelude.{◌≡◌, ◌≤◌, None, OnOk, OnErr, IsSome};
ghost use Rattle.std.specs.Io.KnownBytes.{Appends};
ghost use Rattle.pg_outside.specs.Inside.ToldFiles.{WasPut, WasPartPut};
ghost use Rattle.pg_outside.specs.Faults.{Rose, next_count};
ghost use Rattle.pg_outside.specs.Inside.writers.Streams.{AppendsPart};

use super::outside::{Failed, Sink};
use super::streams::write_bytes;
use std::io;
use std::io::Write;

/// A writer as a sink. It counts its faults, and keeps why the last one came. It tells no content.
/// A write that fails or takes none of its bytes is a fault.
#[derive(Drop)]
pub struct HostSink<W: Write + Drop> {
    writer: W,
    failed: u64,
    puts: u64,
    reason: Option<io::Error>,
}

impl<W: Write + Drop> HostSink<W> {
    ghost use Rattle.pg_outside.specs.Inside.writers.HostSink.{writer_faults, writer_puts, writer_of, writer_reason};

    /// A sink over this writer, with no fault so far.
    pub fn new(writer: W) -> HostSink<W>
        ensures writer { writer_of result ≡ writer }
        ensures faults { writer_faults result ≡ 0 }
        ensures puts { writer_puts result ≡ 0 }
        ensures reason { writer_reason result ≡ None }
    {
        HostSink {
            writer,
            failed: 0,
            puts: 0,
            reason: None,
        }
    }

    /// Why the last put that failed did so, where one failed.
    pub fn reason(&self) -> Option<io::Error>
        ensures { result ≡ writer_reason self.now }
    {
        self.reason
    }
}

impl<W: Write + Drop> Sink for HostSink<W> {
    ghost use Rattle.pg_outside.specs.Inside.writers.HostSink.{writer_faults, writer_puts, writer_of, writer_reason};

    ghost shown = { λ sink. record {
      text = None;
      faults = writer_faults sink;
      puts = writer_puts sink;
    } };

    fn put(&mut self, bytes: &[u8]) -> Result<(), Failed>
        // As for all sinks.
        ensures whole { OnOk result (WasPut None None bytes.now) }
        ensures part { OnErr result (WasPartPut None None bytes.now) }
        ensures later { writer_faults self.old ≤ writer_faults self.new }
        ensures failed { OnErr result (Rose (writer_faults self.old) (writer_faults self.new)) }
        ensures puts { writer_puts self.new ≡ next_count (writer_puts self.old) }

        // A put that fails is one fault, and no other put is one.
        ensures one_fault { OnErr result
            (writer_faults self.new ≡ next_count (writer_faults self.old)) }
        ensures ok_faults { OnOk result (writer_faults self.new ≡ writer_faults self.old) }

        // The reason of a put that fails is kept until another one fails.
        ensures reason { OnErr result (IsSome (writer_reason self.new)) }
        ensures ok_reason { OnOk result (writer_reason self.new ≡ writer_reason self.old) }

        // The writer gets the bytes, where it says which it holds.
        ensures written { OnOk result
            (Appends (W.contents (writer_of self.old))
            (W.contents (writer_of self.new)) bytes.now) }
        ensures part_written { OnErr result
            (AppendsPart (W.contents (writer_of self.old))
            (W.contents (writer_of self.new)) bytes.now) }
    {
        self.puts = self.puts.saturating_add(1);
        match write_bytes(&mut self.writer, bytes) {
            Ok(()) => Ok(()),
            Err(error) => {
                self.failed = self.failed.saturating_add(1);
                self.reason = Some(error);
                Err(Failed)
            }
        }
    }
}
