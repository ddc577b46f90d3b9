//! The cheapest of several sets of parameters, weighed by words that were left out of the
//! selection.
#![tactic(auto)]

mod folds;
pub mod found;
pub mod maker;
pub mod rows;
pub mod sets;
pub mod text;

pub use found::Sweep;
pub use maker::Maker;
pub use rows::SweepRow;
pub use sets::sweep;
pub use text::sweep_text;
