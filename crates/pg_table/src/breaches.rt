//! The first rule of packed tables that a file breaks.
ghost use Rattle.std.specs.Prelude.{◌≡◌, ◌<◌, ◌≤◌, ℕ, true, false, Some, length, IfSome, MatchOption};
ghost use Rattle.std.specs.List.{list_all, range_with_len};
ghost use Rattle.pg_types.specs.declared.packed_table.TheConstants.{HEAD_LEN};
ghost use Rattle.pg_table.specs.Forms.{has_sizes, cell_at, is_sound_cell, is_sound_record, is_well_formed};
ghost use Rattle.pg_table.specs.Inside.Extents.{record_start, read_record, file_len};
ghost use Rattle.pg_table.specs.Inside.Breaches.{cell_breach, record_breach, IsBreach};

use crate::parts::breach::{Breach, CellRule, RecordRule};
use crate::parts::cell::Cell;
use crate::parts::record::{read_record, record_breach, record_start};
use crate::parts::sizes::{Sizes, head_breach};

/// The first cell that may not stand at its place, and the rule that it breaks.
fn first_bad_cell(bytes: &[u8], sizes: &Sizes) -> Option<(u32, CellRule)>
    requires { file_len sizes.now ≤ length bytes.now }
    ensures all { MatchOption result
        (list_all (λ at. is_sound_cell sizes.now at (cell_at bytes.now at))
        (range_with_len 0 sizes.now.cells) ≡ true)
        (λ _. list_all (λ at. is_sound_cell sizes.now at (cell_at bytes.now at))
        (range_with_len 0 sizes.now.cells) ≡ false) }
    ensures inside { IfSome result (λ bad. bad.0 < sizes.now.cells) }
    ensures before { IfSome result (λ bad. (k : ℕ) → k < bad.0
        → is_sound_cell sizes.now k (cell_at bytes.now k) ≡ true) }
    ensures rule { IfSome result
        (λ bad. cell_breach sizes.now bad.0 (cell_at bytes.now bad.0) ≡ Some bad.1) }
{
    'cells: for at in 0..sizes.cells {
        match Cell::read(bytes, at).breach(at, sizes) {
            Some(rule) => return Some((at, rule)),
            None => {}
        }
    }
    None
}

/// The first record that may not stand at its place, counted from 0, and the rule that it breaks.
fn first_bad_record(bytes: &[u8], sizes: &Sizes) -> Option<(u32, RecordRule)>
    requires { file_len sizes.now ≤ length bytes.now }
    ensures all { MatchOption result (list_all
        (λ i. is_sound_record i (read_record bytes.now (record_start sizes.now.cells i)))
        (range_with_len 0 sizes.now.records) ≡ true)
        (λ _. list_all
        (λ i. is_sound_record i (read_record bytes.now (record_start sizes.now.cells i)))
        (range_with_len 0 sizes.now.records) ≡ false) }
    ensures inside { IfSome result (λ bad. bad.0 < sizes.now.records) }
    ensures before { IfSome result (λ bad. (k : ℕ) → k < bad.0
        → is_sound_record k (read_record bytes.now (record_start sizes.now.cells k)) ≡ true) }
    ensures rule { IfSome result (λ bad. record_breach bad.0
        (read_record bytes.now (record_start sizes.now.cells bad.0)) ≡ Some bad.1) }
{
    'records: for i in 0..sizes.records {
        let record = read_record(bytes, record_start(sizes.cells, i));
        if let Some(rule) = record_breach(i, record) {
            return Some((i, rule));
        }
    }
    None
}

/// The first rule on cells or records that a file breaks whose head breaks none.
fn body_breach(bytes: &[u8]) -> Option<Breach>
    requires sizes { has_sizes bytes.now ≡ true }
    requires whole { HEAD_LEN ≤ length bytes.now }
    ensures reader { MatchOption result (is_well_formed bytes.now ≡ true)
        (λ _. is_well_formed bytes.now ≡ false) }
    ensures breach { IfSome result (λ breach. IsBreach bytes.now breach) }
{
    let sizes = Sizes::of(bytes);
    match first_bad_cell(bytes, &sizes) {
        Some((at, rule)) => Some(Breach::Cell(at, rule)),
        None => match first_bad_record(bytes, &sizes) {
            Some((i, rule)) => Some(Breach::Record(i, rule)),
            None => None,
        },
    }
}

/// The first rule of packed tables that a file breaks. It is none exactly where the file is one.
pub fn first_breach(bytes: &[u8]) -> Option<Breach>
    ensures reader { MatchOption result (is_well_formed bytes.now ≡ true)
        (λ _. is_well_formed bytes.now ≡ false) }
    ensures breach { IfSome result (λ breach. IsBreach bytes.now breach) }
{
    match head_breach(bytes) {
        Some(breach) => Some(breach),
        None => body_breach(bytes),
    }
}
