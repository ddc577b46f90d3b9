//! The texts of a run: the report, the hyphenated list and the cells file.
#![tactic(auto)]

mod cells;
mod fronts;
pub mod laws;
mod pattmp;
mod rates;
mod report;
mod word;

pub use cells::{cells_text, push_layout};
pub use pattmp::pattmp_text;
pub use rates::{push_ending, push_totals};
pub use report::report_text;
