//! An observer that shows on standard error where a call is, and keeps what explains its answer.
#![tactic(auto)]

mod messages;

pub use messages::{Messages, Names, Reasons};
