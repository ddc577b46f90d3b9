//! The one call of the program: it reads the arguments of a command, reads its files, does it,
//! writes and prints.
#![tactic(auto)]

mod audit;
mod generate;
pub mod laws;
mod pack;
mod printed;
mod prune;
mod sample;
mod selected_files;
mod selection;
mod sweep;
mod top;
mod totals;

pub use pg_plans::{Status, exit_code};
pub use pg_words::{Command, Names, SweepWords, command};
pub use sample::sample_text;
pub use top::{run, run_watched};
