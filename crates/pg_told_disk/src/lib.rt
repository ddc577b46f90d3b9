//! What tests hand to calls: a disk in memory that tells all that it holds and held, and a system
//! whose arguments are given and whose files may fail.
#![tactic(auto)]

mod arguments;
mod change;
mod links;
mod lookup;
mod scripted;
mod told_disk;

pub use arguments::ScriptedSystem;
pub use scripted::{Broken, Call, ScriptedFile};
pub use told_disk::{ToldDisk, ToldFile};
