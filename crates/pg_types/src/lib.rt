//! What most crates of PatGen share: signs, weights and limits, the status of a position, totals,
//! and a layout's numbers. Refusals, lines, numbers in a text, and rows of bits are here too. So
//! are the sizes of a packed table, the parameters of a run, and the cursor over windows.
#![tactic(auto)]

pub mod bits;
pub mod cursor;
pub mod demands;
mod items;
pub mod limits;
pub mod lines;
pub mod marks;
pub mod numbers;
pub mod packed_table;
pub mod parameters;
pub mod refusals;
mod sums;

pub use cursor::Cursor;
pub use demands::{Due, Parameter, Unmet, first_unmet};
pub use items::{is_answer, is_separator, next_item, read_number};
pub use limits::{
    COST_MAX, EDGE, FAR_BELOW, FEW_SIGNS, FILE_MAX, FOLDS_MAX, FOLDS_MIN, ITEMS_MAX, LENGTH_MAX,
    LEVEL_MAX, NUMBERS_END, PATTERN_SIGNS_MAX, PRICE_MAX, SETS_MAX, SIGNS_MAX, Sign, WEIGHT_MAX,
    WORD_LETTERS_MAX, Weight,
};
pub use lines::next_line;
pub use marks::{Layout, Mark, Totals};
pub use numbers::push_number;
pub use parameters::{LevelParams, Params, read_params};
pub use refusals::{Kind, ReadingError, Refusal};
pub use sums::add_weight;
