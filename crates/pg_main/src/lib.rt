//! What the programs patgen and patgen_refused do: they take the arguments, work on the files of
//! the system, and give the status.
#![tactic(auto)]

ghost use Rattle.std.specs.Prelude.{◌≡◌, ◌≤◌, ◌⊎◌, IfOk, IfErr, MatchResult};
ghost use Rattle.std.specs.Process.{exit_status};
ghost use Rattle.pg_main.specs.ProgramArguments.{arguments_in, IsReasonOf};
ghost use Rattle.pg_main.specs.ProgramCodes.{IsCodeOfRun, IsCodeOfNone};

mod listen;
mod named;

use crate::named::SystemNames;
pub use listen::Listen;
use pg_messages::{Messages, Names, Reasons};
use pg_outside::{Files, HostFiles, HostSink, HostSystem, Sink, WriteError};
use pg_top::{exit_code, run_watched};
use pg_watch::is_shown;
use std::alloc::Global;
use std::env::Args;
use std::io::{ErrorKind, IsTerminal, Write};
use std::process::ExitCode;
use std::time::Clock;
use std::{env, io, rt};

/// Why there are no arguments.
#[derive(Clone, Copy, Debug, PartialEq, Eq)]
pub enum NoArguments {
    /// There was not enough memory for them.
    Memory,
    /// The system did not give them.
    Unreadable,
}

/// The arguments behind the program's name, all of them and in their order.
///
/// # Errors
/// Where there is not enough memory.
pub fn arguments_after_name(alloc: Global, arguments: Args) -> Result<Vec<String>, NoArguments>
    ensures all { IfOk result (λ given. given.items ≡ arguments_in arguments) }
    ensures memory { IfErr result (λ reason. reason ≡ NoArguments.Memory) }
{
    match arguments.skip(1).collect(alloc) {
        Ok(given) => Ok(given),
        Err(_) => Err(NoArguments::Memory),
    }
}

/// The exit code of a program that was handed these arguments, or that got none for this reason.
///
/// It is that of the answer of a call of `run` on these arguments. The code 0 says that all went
/// well, 1 that a file is not the wanted one, and 2 that the arguments are no command. The code 3
/// says that a file is refused, 4 that a file could not be read or written, and 5 that memory was
/// short. Where there are no arguments, it is 5 if there was no memory for them and 6 if the system
/// gave none. Neither `files` nor `out` is called then. The observer is told of the call and of its
/// answer.
pub fn status_of<F: Files, O: Sink, L: Listen>(
    alloc: Global,
    arguments: Result<Vec<String>, NoArguments>,
    files: &mut F,
    out: &mut O,
    listen: &L,
) -> u8
    ensures told { MatchResult arguments
        (λ given. IsCodeOfRun given.items result files.old files.new
        (F.shown files.old, O.shown out.old) (F.shown files.new, O.shown out.new))
        (λ reason. IsCodeOfNone reason result files.old files.new out.old out.new) }
    ensures most { result ≤ 6 }
{
    match arguments {
        Ok(given) => {
            listen.begins(&given);
            let status = run_watched(alloc, &given, files, out, listen);
            listen.ends(&given, &status);
            exit_code(&status)
        }
        Err(reason) => {
            listen.has_no_arguments(&reason);
            match reason {
                NoArguments::Memory => 5,
                NoArguments::Unreadable => 6,
            }
        }
    }
}

/// The arguments behind the program's name, from what the system gives.
///
/// # Errors
/// Where there is not enough memory, here or in the system, and where the system does not give the
/// arguments.
pub fn arguments_of(alloc: Global, arguments: io::Result<Args>) -> Result<Vec<String>, NoArguments>
    ensures given { IfOk arguments (λ arguments. MatchResult result
        (λ given. given.items ≡ arguments_in arguments) (λ reason. reason ≡ NoArguments.Memory)) }
    ensures none { IfErr arguments (λ error. MatchResult result (λ _. ⊥) (IsReasonOf error)) }
{
    match arguments {
        Ok(arguments) => arguments_after_name(alloc, arguments),
        Err(error) if error.kind() == ErrorKind::OutOfMemory => Err(NoArguments::Memory),
        Err(_) => Err(NoArguments::Unreadable),
    }
}

/// The exit code that is this number.
fn code_from(status: u8) -> ExitCode
    ensures { exit_status result ≡ status }
{
    ExitCode::from(status)
}

/// Does what the arguments ask for, and gives the exit code.
///
/// It is that of the answer of a call of `run` on all arguments after the program's name. It is 5
/// where there is no memory for these arguments, here or in the system, and 6 where the system does
/// not give them. The observer is told of the call and of its answer.
///
/// Only `run_arguments` names the system. So a body that changes the status of the system's call can
/// be refused nowhere else than here.
pub fn exit_of<F: Files, O: Sink, L: Listen>(
    alloc: Global,
    arguments: io::Result<Args>,
    files: &mut F,
    out: &mut O,
    listen: &L,
) -> ExitCode
    ensures given { IfOk arguments (λ arguments.
        IsCodeOfRun (arguments_in arguments) (exit_status result) files.old files.new
        (F.shown files.old, O.shown out.old) (F.shown files.new, O.shown out.new)
        ⊎ IsCodeOfNone NoArguments.Memory (exit_status result)
        files.old files.new out.old out.new) }
    ensures none { IfErr arguments (λ error. (reason : NoArguments) × IsReasonOf error reason
        × IsCodeOfNone reason (exit_status result) files.old files.new out.old out.new) }
    ensures most { exit_status result ≤ 6 }
{
    let given = arguments_of(alloc, arguments);
    code_from(status_of(alloc, given, files, out, listen))
}

/// The system's reason as it prints it; empty where it gave none, and where memory is short.
fn reason_text(alloc: Global, reason: Option<io::Error>) -> String {
    let Some(error) = reason else {
        return String::new(alloc);
    };
    match format!(in alloc; "{error}") {
        Ok(text) => text,
        Err(_) => String::new(alloc),
    }
}

/// Why a file could not be read or written: the system's reason, or else that of the write. It is
/// empty where another line says it: that the file was read or written before.
fn files_reason<R: rt::Files + Drop>(alloc: Global, files: &HostFiles<R>) -> String {
    match files.reason() {
        None | Some(WriteError::Failed | WriteError::Kept) => {
            reason_text(alloc, files.system().reason())
        }
        Some(error) => format!(in alloc; "{error}").unwrap_or(String::new(alloc)),
    }
}

/// The name at the end of a path; it is `patgen` where there is none, or where it is no UTF-8.
fn name_at_end(alloc: Global, path: &[u8]) -> String {
    let called = str::from_utf8(path).unwrap_or("");
    let name = match called.rsplit('/').next() {
        Some(name) if !name.is_empty() => name,
        _ => "patgen",
    };
    String::from_str(alloc, name).unwrap_or(String::new(alloc))
}

/// The name by which the program was called, without its folders. It is `patgen` where the system
/// gives none, or one of more than 1,024 bytes.
fn program_name<R: rt::Env>(alloc: Global, rt: &R) -> String {
    let mut room = [0; 1024];
    match rt.arg(0, &mut room) {
        Ok(len) => name_at_end(alloc, room.get(..len).unwrap_or(&[])),
        Err(_) => name_at_end(alloc, b""),
    }
}

/// Whether the line of progress is shown on `err`, as the variable `PATGEN_PROGRESS` has it.
fn shows_progress<R: rt::Env + AllocGlobal, E: IsTerminal>(rt: &R, err: &E) -> bool {
    let choice = env::var(rt, "PATGEN_PROGRESS").ok();
    is_shown(choice.as_deref(), err.is_terminal())
}

/// Puts what explains a call that ended at a file or at lines that could not be put, with the
/// reasons that the system gave.
fn put_fault<R: rt::Files + Drop, C: Clock, N: Names + Drop, E: Write + Drop>(
    alloc: Global,
    files: &HostFiles<R>,
    of_puts: Option<io::Error>,
    messages: &Messages<'_, C, N, E>,
) {
    let of_files = files_reason(alloc, files);
    let of_puts = reason_text(alloc, of_puts);
    let reasons = Reasons {
        files: &of_files,
        puts: &of_puts,
    };
    messages.put_fault(&reasons);
}

/// Does what the arguments of the program ask for, over the files of the system and a writer, which
/// is to be standard output.
///
/// While the call works, a line on `err`, which is to be standard error, says where it is. At the
/// end `err` gets what explains the answer. The variable `PATGEN_PROGRESS` says whether the line is
/// shown: `always` or `never`. With any other value it is shown only where standard error is a
/// terminal.
pub fn run_arguments<
    R: rt::Files + rt::Env + rt::Clock + AllocGlobal,
    W: Write + Drop,
    E: Write + IsTerminal + Drop,
>(rt: &R, out: W, err: E) -> ExitCode
    ensures { exit_status result ≤ 6 }
{
    let alloc = rt.alloc();
    let is_shown = shows_progress(rt, &err);
    let mut files = HostFiles::new(alloc, HostSystem::new(rt));
    let mut sink = HostSink::new(out);
    let program = program_name(alloc, rt);
    let messages = Messages::new(alloc, program, SystemNames::new(rt), rt, err, is_shown);
    let code = exit_of(alloc, env::args(rt), &mut files, &mut sink, &messages);
    put_fault(alloc, &files, sink.reason(), &messages);
    code
}
