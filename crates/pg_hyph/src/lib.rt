//! The hyphenator: the values and the covers of the positions of a word, by the lists of a pattern
//! trie.
#![tactic(auto)]

mod records;
mod walk;
mod word;

pub use word::hyphenate;
