//! The windows that are counted in a pass, each with its sums of good and bad weights, in packed
//! cells.
#![tactic(auto)]

mod counts;
mod floor;
mod least;

pub use counts::CountTrie;
