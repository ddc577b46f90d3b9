//! The packed engine, over tries in packed cells.
#![tactic(auto)]

pub mod engine;
mod start;

pub use engine::PackedEngine;
