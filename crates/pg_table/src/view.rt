//! A packed table that is read in place.
ghost use Rattle.std.specs.Prelude.{◌≡◌, ◌+◌, ◌-◌, ◌<◌, ◌≤◌, ◌&&◌, true, false, ◌⊎◌, ℕ, [], ◌∷◌, length, slice_index, slice_index_or, slice_range, All, IfSome, MatchOption};
ghost use Rattle.pg_types.specs.declared.limits.TheConstants.{WORD_LETTERS_MAX};
ghost use Rattle.pg_types.specs.declared.packed_table.TheConstants.{CELL_LEN, RECORD_LEN};
ghost use Rattle.pg_types.specs.Inside.Signs.{IsSignCount};
ghost use Rattle.pg_table.specs.Lookups.{cell_has_sign, table_value};
ghost use Rattle.pg_table.specs.Inside.view.ListsOf.{list_in};
ghost use Rattle.pg_table.specs.Forms.{sizes_of, cell_at, is_well_formed};
ghost use Rattle.pg_table.specs.Inside.Extents.{cell_start, record_start};

pub mod totals;
mod walks;

use crate::breaches::first_breach;
use crate::parts::cell::{Cell, cell_start};
use crate::parts::record::{read_record, record_start};
use crate::parts::sizes::Sizes;
use crate::view::walks::walk;
use pg_dict::WordRef;
use pg_select::WordState;
use pg_types::Sign;
use pg_types::packed_table::{CELL_LEN, RECORD_LEN};
use std::marker::Model;

/// A packed table in borrowed bytes.
#[derive(Drop)]
pub struct TableView<'a> {
    bytes: &'a [u8],
    sizes: Sizes,
}

impl<'a> Model for TableView<'a> {
    ghost use Rattle.std.specs.Prelude.{ℕ, List, ◌≡◌, true};
    ghost use Rattle.pg_table.specs.Forms.{sizes_of, is_well_formed};

    ghost Value = { List ℕ };

    ghost view = { λ v. v.bytes.now };

    ghost invariant = { λ v.
        (is_well_formed v.bytes.now ≡ true) × (v.sizes ≡ sizes_of v.bytes.now) };
}

impl<'a> TableView<'a> {
    /// The table of a file, or `None` exactly where the file breaks a rule. Each cell and each
    /// record is looked at once.
    pub fn read(bytes: &'a [u8]) -> Option<TableView<'a>>
        ensures { MatchOption result (is_well_formed bytes.now ≡ false)
            (λ v. (is_well_formed bytes.now ≡ true) × (v ≡ bytes.now)) }
    {
        match first_breach(bytes) {
            None => Some(TableView {
                bytes,
                sizes: Sizes::of(bytes),
            }),
            Some(_) => None,
        }
    }

    /// The greatest sign.
    pub fn signs(&self) -> u16
        ensures signs { result ≡ (sizes_of self.now).signs }
        ensures range { IsSignCount result }
        ensures well_formed { is_well_formed self.now ≡ true }
    {
        self.sizes.signs as u16
    }

    /// The bytes of the cell with this number, or `None` exactly where there are not so many cells.
    pub fn cell(&self, at: u32) -> Option<&'a [u8]>
        ensures { MatchOption result ((sizes_of self.now).cells ≤ at)
            (λ c. (at < (sizes_of self.now).cells)
            × (c.now ≡ slice_range self.now (cell_start at) (cell_start at + CELL_LEN))) }
    {
        if at >= self.sizes.cells {
            return None;
        }
        let start = cell_start(at);
        Some(&self.bytes[start..start + CELL_LEN])
    }

    /// The bytes of the record with this head. It is `None` exactly where the head is 0 or greater
    /// than the number of records.
    pub fn output_at(&self, head: u32) -> Option<&'a [u8]>
        ensures { let start = record_start (sizes_of self.now).cells (head - 1) in
            MatchOption result ((head ≡ 0) ⊎ ((sizes_of self.now).records < head))
            (λ r. (0 < head) × (head ≤ (sizes_of self.now).records)
            × (r.now ≡ slice_range self.now start (start + RECORD_LEN))) }
    {
        let i = head.checked_sub(1)?;
        if i >= self.sizes.records {
            return None;
        }
        let start = record_start(self.sizes.cells, i);
        Some(&self.bytes[start..start + RECORD_LEN])
    }

    /// Sets the value of each position of a word to that of the table, and its cover to false. It
    /// takes no memory.
    pub fn values(&self, w: WordRef<'_>, out: &mut WordState)
        requires word { length w.signs.now ≤ WORD_LETTERS_MAX + 2 }
        requires signs { All (λ s. s ≤ (sizes_of self.now).signs) w.signs.now }
        ensures values { (p : ℕ) → p < length w.entry.signs.now →
            slice_index out.new.values p ≡ table_value self.now w.entry.signs.now p }
        ensures covers { (p : ℕ) → p < length w.entry.signs.now
            → slice_index_or out.new.covers p false ≡ false }
    {
        *out = WordState::new();
        walk(self, w.signs, out);
    }
}

impl TableView<'_> {
    /// The cell of the sign in the family at the base, or `None` where the family does not have it.
    pub(crate) fn find(&self, base: u32, s: Sign) -> Option<Cell>
        requires { base ≤ (sizes_of self.now).cells }
        ensures cell { MatchOption result (cell_has_sign self.now base s ≡ false)
            (λ c. (cell_has_sign self.now base s ≡ true) × (c ≡ cell_at self.now (base + s))) }
        ensures within { IfSome result (λ c.
            (c.child < (sizes_of self.now).cells) × (c.head ≤ (sizes_of self.now).records)) }
    {
        let cells = self.sizes.cells;
        let at = base + u32::from(s);
        if at >= cells {
            return None;
        }
        let cell = Cell::read(self.bytes, at);
        if cell.sign == s { Some(cell) } else { None }
    }

    /// The first value and dot of a list, with the head of its rest. `None` is the empty list, head
    /// 0.
    pub(crate) fn first(&self, head: u32) -> Option<(u8, u8, u32)>
        requires { head ≤ (sizes_of self.now).records }
        ensures list { MatchOption result (list_in self.now head ≡ [])
            (λ r. list_in self.now head ≡ (r.0, r.1) ∷ list_in self.now r.2) }
        ensures back { IfSome result (λ r. r.2 < head) }
    {
        let i = head.checked_sub(1)?;
        let entry = read_record(self.bytes, record_start(self.sizes.cells, i));
        Some((entry.value, entry.dot, entry.next as u32))
    }
}
