//! A packed table of patterns: a file of cells and records that is read in place, and the text of
//! such a file.
#![tactic(auto)]

mod breaches;
mod error;
pub mod laws;
mod parts;
mod text;
mod view;

pub use breaches::first_breach;
pub use error::TableError;
pub use parts::breach::{Breach, CellRule, RecordRule};
pub use text::table_text;
pub use view::TableView;
pub use view::totals::table_totals;
