//! Output records that lists share: a list is named by its head, and equal lists have equal heads.
#![tactic(auto)]

mod lists;
mod records;

pub use lists::Outputs;
pub use records::Record;
