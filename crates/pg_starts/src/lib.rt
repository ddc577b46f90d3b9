//! Numbers of windows by their starts, and the sums of windows by number.
#![tactic(auto)]

mod cells;
mod codes;
mod keys;
mod start_counts;
mod start_numbers;
mod steps;
mod tallies;

pub use start_counts::StartCounts;
pub use start_numbers::StartNumbers;
pub use tallies::Tallies;
