//! Texts for a terminal: a few whole lines, and a line of a file with a caret below a place of it.
//! No byte of a file or name stands in them as a control byte.
#![tactic(auto)]

mod excerpts;
mod line;
mod places;
mod text;

pub use line::{Part, is_invisible, visible};
pub use places::Spot;
pub use text::{LINES_MAX, Text};
