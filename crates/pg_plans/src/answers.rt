//! The answers of a call.
ghost use Rattle.std.specs.Prelude.{◌≡◌, ◌≤◌};
ghost use Rattle.pg_plans.specs.ExitCodes.{code_of};

/// How a call ended.
#[derive(Clone, Copy, Debug, PartialEq, Eq)]
pub enum Status {
    /// The command did what it was asked for.
    Done,
    /// The given files are those that are wanted.
    Yes,
    /// A given file has a false line, which was named.
    No,
    /// The arguments are no command.
    Usage,
    /// An input breaks its rules.
    Refused,
    /// A file could not be read or written, or a line could not be printed.
    Fault,
    /// There was not enough memory.
    Memory,
}

/// The exit code of an answer: 0 for `Done` and `Yes`, and 1 to 5 for `No`, `Usage`, `Refused`,
/// `Fault` and `Memory`.
pub fn exit_code(status: &Status) -> u8
    ensures value { result ≡ code_of status.now }
    ensures most { result ≤ 5 }
{
    match status {
        Status::Done | Status::Yes => 0,
        Status::No => 1,
        Status::Usage => 2,
        Status::Refused => 3,
        Status::Fault => 4,
        Status::Memory => 5,
    }
}
