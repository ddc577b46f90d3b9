//! A sink in memory that can fail at a chosen call.
ghost use Rattle.std.specs.Prelude.{◌≡◌, ℕ, ◌+◌, ◌<◌, ◌≤◌, List, [], ◌++◌, take, length, Option, Some, None, OnOk, OnErr, IfOk, IsOk, IsErr, IsSome, vec_len, vec_capacity};
ghost use Rattle.std.specs.FinMap as fin;
ghost use Rattle.pg_outside.specs.Inside.ToldFiles.{WasPut, WasPartPut};
ghost use Rattle.pg_outside.specs.Faults.{next_count, Rose};

use super::bounded_bytes::BoundedBytes;
use super::plans::Plans;
use crate::outside::{Failed, Sink};
use std::alloc::{AllocError, Global};

/// A sink of bounded room in memory. It always tells what it holds, and its puts can be made to
/// fail. A put that is listed, or for which the room does not suffice, fails and raises the count.
/// Every other put succeeds.
#[derive(Drop)]
pub struct MemorySink {
    held: BoundedBytes,
    plans: Plans,
    failed: u64,
}

impl MemorySink {
    ghost use Rattle.pg_outside.specs.Inside.memory.MemorySink.{sink_bytes, sink_room, sink_faults, puts_of, listed_puts, next_listed_put};

    /// An empty sink that holds at most `room` bytes.
    ///
    /// # Errors
    /// Where there is not enough memory.
    pub fn new(alloc: Global, room: usize) -> Result<MemorySink, AllocError>
        ensures bytes { IfOk result (λ sink. sink_bytes sink ≡ []) }
        ensures room { IfOk result (λ sink. sink_room sink ≡ room) }
        ensures faults { IfOk result (λ sink. sink_faults sink ≡ 0) }
        ensures puts { IfOk result (λ sink. puts_of sink ≡ 0) }
        ensures listed { IfOk result (λ sink. listed_puts sink ≡ fin.empty) }
    {
        Ok(MemorySink {
            held: BoundedBytes::new(alloc, room)?,
            plans: Plans::new(alloc),
            failed: 0,
        })
    }

    /// Lets the put with this number fail, counted from 1. It appends nothing for `None`. For
    /// `Some(k)` it appends the first `k` bytes of those handed to it, at most all, where the room
    /// suffices for the whole put. A put that is listed again has the later `keep`.
    ///
    /// # Errors
    /// Where there is not enough memory; all is then as before.
    pub fn fail_at(&mut self, call: u64, keep: Option<usize>) -> Result<(), AllocError>
        ensures ok { OnOk result
            (listed_puts self.new ≡ fin.insert (listed_puts self.old) call keep) }
        ensures err { OnErr result (listed_puts self.new ≡ listed_puts self.old) }

        // All else is as before in both cases.
        ensures bytes { sink_bytes self.new ≡ sink_bytes self.old }
        ensures room { sink_room self.new ≡ sink_room self.old }
        ensures faults { sink_faults self.new ≡ sink_faults self.old }
        ensures puts { puts_of self.new ≡ puts_of self.old }
    {
        self.plans.list(call, keep)
    }

    /// What was put.
    pub fn bytes(&self) -> &[u8]
        ensures { result.now ≡ sink_bytes self.now }
    {
        self.held.bytes.as_slice()
    }

    /// Counts a fault.
    fn fail(&mut self) -> Result<(), Failed>
        ensures failed { IsErr result }
        ensures held { self.new.held ≡ self.old.held }
        ensures later { sink_faults self.old ≤ sink_faults self.new }
        ensures faults { sink_faults self.new ≡ next_count (sink_faults self.old) }
        ensures by_one { sink_faults self.new ≤ sink_faults self.old + 1 }
        ensures plans { self.new.plans ≡ self.old.plans }
    {
        self.failed = self.failed.saturating_add(1);
        Err(Failed)
    }
}

impl Sink for MemorySink {
    ghost use Rattle.pg_outside.specs.Inside.memory.MemorySink.{sink_bytes, sink_room, sink_faults, puts_of, listed_puts, next_listed_put, IsWithin, IsPast, SameBytes, PutsFront};

    ghost shown = { λ sink. record {
      text = Some (sink_bytes sink);
      faults = sink_faults sink;
      puts = puts_of sink;
    } };

    fn put(&mut self, bytes: &[u8]) -> Result<(), Failed>
        // As for all sinks.
        ensures whole { OnOk result
            (WasPut (Some (sink_bytes self.old)) (Some (sink_bytes self.new)) bytes.now) }
        ensures part { OnErr result
            (WasPartPut (Some (sink_bytes self.old)) (Some (sink_bytes self.new)) bytes.now) }
        ensures later { sink_faults self.old ≤ sink_faults self.new }
        ensures failed { OnErr result (Rose (sink_faults self.old) (sink_faults self.new)) }

        // The put is counted, and the puts that are to fail stay listed.
        ensures puts { puts_of self.new ≡ next_count (puts_of self.old) }
        ensures listed { listed_puts self.new ≡ listed_puts self.old }
        ensures room { sink_room self.new ≡ sink_room self.old }

        // A put that is listed or past the room fails. Past the room it appends nothing, and else
        // a listed put appends what it keeps.
        ensures listed_fails { IsSome (next_listed_put self.old) → IsErr result }
        ensures past_fails { IsPast self.old bytes.now → IsErr result }
        ensures past { IsPast self.old bytes.now → SameBytes self.old self.new }
        ensures keeps_none { next_listed_put self.old ≡ Some None → SameBytes self.old self.new }
        ensures keeps { PutsFront self.old self.new bytes.now }

        // Every other put succeeds and raises no count, and no put raises it by more than one.
        ensures succeeds { next_listed_put self.old ≡ None
            → IsWithin self.old bytes.now → IsOk result }
        ensures ok_faults { OnOk result (sink_faults self.new ≡ sink_faults self.old) }
        ensures by_one { sink_faults self.new ≤ sink_faults self.old + 1 }
    {
        let plan = self.plans.next();
        if !self.held.has_room(bytes) {
            return self.fail();
        }
        match plan {
            None => {
                self.held.append(bytes);
                Ok(())
            }
            Some(plan) => {
                self.held.append(plan.front(bytes));
                self.fail()
            }
        }
    }
}
