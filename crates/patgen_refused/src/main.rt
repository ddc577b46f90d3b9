//! The program `patgen` once more, for a run with eleven arguments. The last one names a file that
//! is refused. The line and the status of the run are looked at.
#![tactic(auto)]

use pg_main::run_arguments;
use std::process::ExitCode;

/// Runs the command that its arguments name, as `patgen` does.
fn main(rt: HostRuntime) -> ExitCode {
    run_arguments(&rt, rt.stdout(), rt.stderr())
}
