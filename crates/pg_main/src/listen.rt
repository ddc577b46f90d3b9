//! What the observer of a program is told beside the steps of a call.
use crate::NoArguments;
use pg_messages::{Messages, Names};
use pg_top::Status;
use pg_watch::Watch;
use std::io::Write;
use std::time::Clock;

/// An observer that is told of the arguments and of the answer too. Nothing is promised of its
/// calls, and nothing is asked of it.
pub trait Listen: Watch {
    /// The call on these arguments begins.
    fn begins(&self, arguments: &[String]);

    /// The call on these arguments gave this answer.
    fn ends(&self, arguments: &[String], status: &Status);

    /// There are no arguments.
    fn has_no_arguments(&self, reason: &NoArguments);
}

/// What stands on standard error where the system did not give the arguments.
const UNREADABLE: &[u8] = b"the system did not give the arguments, or one of them is no UTF-8\n";

impl<'a, C: Clock, N: Names + Drop, E: Write + Drop> Listen for Messages<'a, C, N, E> {
    fn begins(&self, arguments: &[String]) {
        self.take_arguments(arguments);
    }

    fn ends(&self, arguments: &[String], status: &Status) {
        match status {
            Status::Done | Status::Yes => self.put_notes(),
            Status::No | Status::Refused => self.put_reason(),
            Status::Usage => self.put_arguments(arguments),
            Status::Memory => self.put_memory(),
            Status::Fault => self.keep_fault(),
        }
    }

    fn has_no_arguments(&self, reason: &NoArguments) {
        match reason {
            NoArguments::Memory => self.put_memory(),
            NoArguments::Unreadable => self.put(UNREADABLE),
        }
    }
}
