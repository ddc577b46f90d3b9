//! Hyphenation patterns: a map from signs with a dot to values, read from and written to pattern
//! files.
#![tactic(auto)]

pub mod dotted_signs;
mod draft;
mod entries;
mod reader;
pub mod set;
mod text;

pub use dotted_signs::DottedSigns;
pub use set::{Entry, PatternSet};
