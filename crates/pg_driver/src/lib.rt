//! The driver: the run over levels and passes, for any engine.
#![tactic(auto)]

mod choices;
mod counting;
mod level;
mod levels;
mod pass_windows;
mod records;
mod run;
mod sums;

pub use levels::generate;
pub use records::{LevelRecord, PassRecord};
pub use run::Run;
pub use sums::totals;
