//! Whole calls of the program over files in memory, and explanations of what went wrong: each row
//! of each table that the arguments name, with what is wanted of it.
//!
//! It prints a line for each table, and above it what is wrong with a call of a row. The status is
//! 0 where all is as wanted. A table is wrong too where a line of it cannot be read or done, and
//! what stands behind that is not done.
#![tactic(auto)]

mod asked;
mod case;
mod changes;
mod compare;
mod keyword;
mod made;
mod pieces;
mod table;
mod trial;

use std::process::ExitCode;
use std::rt::{Env, Files};
use std::{env, fs, io};
use trial::Trial;

/// Reads a table and does its rows: whether all goes as wanted.
fn try_table<R: Files + AllocGlobal + Print>(rt: &R, name: &str) -> io::Result<bool> {
    let text = fs::read_to_string(rt, name)?;
    let mut trial = Trial::new(rt.alloc(), name);
    trial.try_text(text.as_str())?;
    let (told, rows, calls, wrong) = (&trial.told, trial.rows, trial.calls, trial.wrong);
    println!(rt; "{told}{name}: {rows} rows, {calls} calls, {wrong} wrong")?;
    Ok(wrong == 0)
}

/// Tries each table that the arguments name: whether all go as wanted.
fn try_tables<R: Files + Env + AllocGlobal + Print>(rt: &R) -> io::Result<bool> {
    let mut are_right = true;
    for name in env::args(rt)?.skip(1) {
        are_right &= try_table(rt, name.as_str())?;
    }
    Ok(are_right)
}

fn main(rt: HostRuntime) -> io::Result<ExitCode> {
    if try_tables(&rt)? {
        Ok(ExitCode::SUCCESS)
    } else {
        Ok(ExitCode::FAILURE)
    }
}
