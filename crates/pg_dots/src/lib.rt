//! Which dots are closed at which positions: a bit for each.
#![tactic(auto)]

mod bits;
mod open_dots;
mod position_set;
mod start_set;
mod walk;

pub use open_dots::OpenDots;
pub use position_set::PositionSet;
pub use start_set::StartSet;
pub use walk::Walk;
