//! The plan of a call: it reads a file and goes on by its bytes, or it ends with an answer, the
//! files that it writes and the lines that it puts. Here is what it means that a call follows its
//! plan, and the laws of that. A plan is data. So calls, faults, memory and answers are said once
//! for all commands, and the proof of a command has a line for each of its exits.
#![tactic(auto)]

mod answers;
pub mod laws;

pub use answers::{Status, exit_code};
