//! The dictionary: its words, read in one pass and held together in one store.
#![tactic(auto)]

pub mod dictionary;
mod entries;
pub mod laws;
mod sites;
mod store;
pub mod word;

pub use dictionary::Dictionary;
pub use sites::Site;
pub use word::WordRef;
