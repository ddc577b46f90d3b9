//! The table of a translate file: its letters with their spellings, its marks and minima, and the
//! items of lines under it.
#![tactic(auto)]

mod head;
mod index;
pub mod items;
mod reading;
pub mod reasons;
mod spellings;
pub mod table;
mod weights;

pub use head::{DEFAULT_LEFT, DEFAULT_RIGHT, MINIMUM_MAX};
pub use items::{Item, Place};
pub use reasons::{
    BadHead, BadMark, BadSpelling, bad_head, bad_spelling, first_clash, mark_column, spelling_at,
};
pub use spellings::SPELLING_MAX;
pub use table::{Table, laws};
