//! Observers of a call, an engine that tells one where a pass begins, and the line that says where
//! a call is.
#![tactic(auto)]

mod line;
mod screen;
mod watch;
mod watched;

pub use line::{Step, line_text};
pub use screen::{Screen, is_due, is_shown};
pub use watch::{PassProgress, Quiet, RefusedFile, SweepRun, Watch};
pub use watched::Watched;
