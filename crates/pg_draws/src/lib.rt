//! Numbers that are drawn from a seed. `sample`, rows and tests draw here. The crate stands on no
//! other, so tests of the lowest crates can use it.
#![tactic(auto)]

mod draws;

pub use draws::Draws;
