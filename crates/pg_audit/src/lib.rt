//! The comparison of a given file with the wanted one: the first line that is false.
#![tactic(auto)]

pub mod laws;
mod lines;

pub use lines::{FalseLine, SHOWN_MAX, compare};
