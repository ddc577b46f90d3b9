//! A sink in memory that never fails.
ghost use Rattle.std.specs.Prelude.{◌≡◌, ◌≤◌, [], Some, None, OnOk, OnErr, IfOk, IsOk, Option};
ghost use Rattle.std.specs.Option.{option_copied};
ghost use Rattle.pg_outside.specs.Inside.ToldFiles.{WasPut, WasPartPut};
ghost use Rattle.pg_outside.specs.Faults.{Rose, next_count};

use crate::memory::bounded_bytes::BoundedBytes;
use crate::outside::{Failed, Sink};
use std::alloc::{AllocError, Global};

/// A sink of bounded room in memory whose puts always succeed. It tells its bytes until a put for
/// which the room does not suffice. From then on it tells nothing.
#[derive(Drop)]
pub struct QuietSink {
    held: BoundedBytes,
    is_told: bool,
    puts: u64,
}

impl QuietSink {
    ghost use Rattle.pg_outside.specs.Inside.quiet.QuietSink.{told_text, quiet_sink_room};

    /// An empty sink with room for `room` bytes, which tells its bytes.
    ///
    /// # Errors
    /// Where there is not enough memory.
    pub fn new(alloc: Global, room: usize) -> Result<QuietSink, AllocError>
        ensures bytes { IfOk result (λ sink. told_text sink ≡ Some []) }
        ensures room { IfOk result (λ sink. quiet_sink_room sink ≡ room) }
    {
        Ok(QuietSink {
            held: BoundedBytes::new(alloc, room)?,
            is_told: true,
            puts: 0,
        })
    }

    /// What was put. `None` comes exactly where the sink tells nothing.
    pub fn bytes(&self) -> Option<&[u8]>
        ensures { option_copied result ≡ told_text self.now }
    {
        if !self.is_told {
            return None;
        }
        Some(self.held.bytes.as_slice())
    }
}

impl Sink for QuietSink {
    ghost use Rattle.pg_outside.specs.Inside.quiet.QuietSink.{told_text, quiet_sink_room, quiet_puts_of, quiet_sink_shown, PutsWithin, EndsPast};

    ghost shown = { quiet_sink_shown };

    fn put(&mut self, bytes: &[u8]) -> Result<(), Failed>
        // As for all sinks.
        ensures whole { OnOk result (WasPut (told_text self.old) (told_text self.new) bytes.now) }
        ensures part { OnErr result
            (WasPartPut (told_text self.old) (told_text self.new) bytes.now) }
        ensures later { (quiet_sink_shown self.old).faults ≤ (quiet_sink_shown self.new).faults }
        ensures failed { OnErr result
            (Rose (quiet_sink_shown self.old).faults (quiet_sink_shown self.new).faults) }
        ensures puts { quiet_puts_of self.new ≡ next_count (quiet_puts_of self.old) }

        // Every put succeeds. Within its room the sink goes on telling its bytes; past the room it
        // tells nothing from then on.
        ensures succeeds { IsOk result }
        ensures within { PutsWithin self.old self.new bytes.now }
        ensures past { EndsPast self.old self.new bytes.now }
        ensures untold { told_text self.old ≡ None → told_text self.new ≡ None }
        ensures room { quiet_sink_room self.new ≡ quiet_sink_room self.old }
    {
        self.puts = self.puts.saturating_add(1);
        if self.is_told && self.held.has_room(bytes) {
            self.held.append(bytes);
        } else {
            self.is_told = false;
        }
        Ok(())
    }
}
