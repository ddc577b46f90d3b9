//! Patterns pruned by a dictionary: the entries that it needs, and where it needs them.
#![tactic(auto)]

mod positions;
pub mod pruned;
pub mod pruning;
pub mod report;
mod rounds;

pub use pruned::{Need, Pruned};
pub use pruning::{prune, prune_watched};
pub use report::prune_text;
pub use rounds::{NoObserver, RoundObserver};
