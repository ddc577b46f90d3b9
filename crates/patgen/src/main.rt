//! `patgen`: makes TeX hyphenation patterns from a word list whose hyphens are marked.
#![tactic(auto)]

use pg_main::run_arguments;
use std::process::ExitCode;

/// Runs the command that its arguments name. `status_of` of pg_main says what the status means.
fn main(rt: HostRuntime) -> ExitCode {
    run_arguments(&rt, rt.stdout(), rt.stderr())
}
