//! The parts of a table in bytes.

pub mod breach;
pub mod cell;
pub mod numbers;
pub mod record;
pub mod sizes;
