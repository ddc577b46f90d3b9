//! The arguments of a call, and the command that they are.
#![tactic(auto)]

pub mod arguments;
pub mod commands;
pub mod forms;
mod generate;
pub mod limits;
mod names;
mod numbers;
mod pack;
mod prune;
mod sample;
pub mod slips;
mod sweep;
mod totals;

pub use arguments::command;
pub use commands::{Command, Names, PackNames, PruneNames, SweepWords, TotalsNames};
pub use forms::{FORMS, Form, Kind, Label, Slot};
pub use slips::{Slip, first_slip};
