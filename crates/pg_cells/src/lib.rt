//! The families of a trie in one row of cells, each at the least base that its placement allows.
//!
//! - A *cell* is a place for one string. It has the string's last sign, its value, and the base of
//!   the family below it, 0 for none. A cell without a sign is free, and cell 0 is never taken.
//! - A *family* is the strings that go on from one prefix by one sign. It has a *base*, and its
//!   string with the sign s has the cell base + s. So a string is found by one addition a sign. No
//!   two families have one base, and no cell belongs to two.
//! - The *root* is the family of the empty prefix. Its base is 0, and it has every sign.
//! - A sign that joins a family takes its cell. Where another family has that cell, the family
//!   moves: it gives up its cells, and all its signs go to the least base at which they may stand.
//!   Where the search begins depends on the number of signs and the greatest taken cell. A family
//!   of up to `FEW_SIGNS` signs is sought from base 1 on.
//! - A *link* leads from sign to sign. A cell has the next sign of its own family, and the first
//!   sign of the family below it. So the signs of a family are found without a look at every cell.
//! - A *bound* of a sign is a base. Below it no base can be taken for a family with this sign,
//!   since the base or the sign's cell there is taken. Cells and bases that are given up lower the
//!   bounds. A search begins at the greatest bound of the family's signs.
//! - Two sets of bits say which cells are taken, and which indices are bases. By them a search looks
//!   at 64 bases together, and passes over each 64 cells that are all taken.
//!
//! `store` is the row, with its cells, its free cells, its bounds and the search for a base.
//! `families` is the placement, with its steps. `linked` adds the links, and `walks` goes from
//! string to string.
#![tactic(auto)]

mod families;
mod linked;
mod store;
mod walks;

pub use linked::Cells;
pub use walks::{enter, step};
