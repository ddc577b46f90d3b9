//! The trie of the patterns and hopeless entries, in packed cells whose values are heads of shared
//! lists.
#![tactic(auto)]

mod copy;
mod deleting;
mod hopeless;
mod lists;
mod trie;

pub use hopeless::HOPELESS;
pub use trie::PatternTrie;
