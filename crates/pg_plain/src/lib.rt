//! The plain engine, over ordered maps.
#![tactic(auto)]

mod counts;
mod dotted_entry;
mod dotted_keys;
mod dotted_maps;
pub mod engine;
mod walk;

pub use engine::PlainEngine;
