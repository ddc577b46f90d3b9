//! Files and a sink in memory that can fail at a chosen call.

pub mod bounded_bytes;
pub mod files;
pub mod missing;
pub mod plans;
pub mod sink;
pub mod stored;
