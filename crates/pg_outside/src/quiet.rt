//! Files and a sink in memory that never fail.

pub mod files;
pub mod sink;
