//! The choice among windows: statuses, windows, covers, candidates and their counts, and the
//! contract of an engine.
#![tactic(auto)]

pub mod choice;
pub mod engine;
pub mod laws;
pub mod marks;
pub mod pass;
pub mod word_state;

pub use choice::{Choice, decide, status};
pub use engine::Engine;
pub use pass::Pass;
pub use word_state::WordState;
