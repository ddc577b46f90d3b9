//! What a call says on standard error: what is wrong, where, and what is due there. Each text is a
//! few whole lines of plain English. No byte of a file or of a name reaches the terminal as a
//! control byte.
//!
//! `wrong` says what can be explained, and `explanation` is the call. The statuses 0 to 4 have a
//! module each: `notes` (0), `false_lines` (1), `arguments` (2), `refused` (3) and `faults` (4).
//!
//! A text stands whole in the source, so that it can be sought there, with `$0` to `$9` for the
//! names, bytes and numbers in it. Limits come from the constants, but a number with a comma stands
//! in the text.
#![tactic(auto)]

mod arguments;
mod chars;
mod explanation;
mod false_lines;
mod faults;
mod notes;
mod refused;
mod wrong;

pub use arguments::is_output;
pub use explanation::{MEMORY, explain};
pub use wrong::{Before, ComparedLine, Deed, Fault, Letters, RefusalCase, Wrong};
