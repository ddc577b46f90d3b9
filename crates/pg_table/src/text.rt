//! The text of a packed table.
ghost use Rattle.std.specs.Prelude.{◌≡◌, ◌+◌, ◌*◌, ◌<◌, ◌≤◌, ◌↔◌, ◌++◌, true, length, IsTrue, IfOk, IfErr, OnOk};
ghost use Rattle.std.specs.List.{flat_map};
ghost use Rattle.pg_types.specs.Inside.Signs.{IsSignCount};
ghost use Rattle.pg_types.specs.Placement.{top};
ghost use Rattle.pg_patterns.specs.Inside.PatternMaps.{IsPatternMap, SignsUpTo};
ghost use Rattle.pg_table.specs.declared.error.TableError.TheVariants.{TooLong};
ghost use Rattle.pg_types.specs.declared.packed_table.TheConstants.{CELL_LEN, HEAD_LEN, RECORD_LEN, TABLE_MAX};
ghost use Rattle.pg_table.specs.Forms.{is_well_formed};
ghost use Rattle.pg_table.specs.Inside.Laws.{HasEntries};
ghost use Rattle.pg_table.specs.Inside.text.PackedTrie.{IsEntered};
ghost use Rattle.pg_table.specs.Texts.{table_text};
ghost use Rattle.pg_table.specs.Inside.text.Files.{file_of, cell_bytes, record_bytes};

mod entering;
mod row;

use crate::error::TableError;
use crate::parts::cell::Cell;
use crate::parts::numbers::{push_u16, push_u32};
use crate::text::entering::{PackedTrie, enter_all};
use crate::text::row::table_cells;
use pg_outputs::Outputs;
use pg_patterns::PatternSet;
use pg_types::packed_table::{CELL_LEN, HEAD_LEN, RECORD_LEN, SIGNATURE, TABLE_MAX};
use std::alloc::{AllocError, Global};

/// The packed table of patterns, where `signs` is the greatest sign.
/// [`TableView`](crate::TableView) reads it in place, and each string has the values of the
/// patterns there.
///
/// [`TableError::TooLong`] comes only where the table would have more than [`TABLE_MAX`] bytes.
/// Such a table is never given: where memory is short first, [`TableError::Memory`] comes.
pub fn table_text(alloc: Global, signs: u16, patterns: &PatternSet) -> Result<Vec<u8>, TableError>
    requires signs { IsSignCount signs }
    requires known { SignsUpTo signs patterns.now }
    ensures text { IfOk result (λ text. text.items ≡ table_text signs patterns.now) }
    ensures well_formed { IfOk result (λ text. is_well_formed text.items ≡ true) }
    ensures values { IfOk result (λ text. HasEntries text.items patterns.now) }
    ensures map { IfOk result (λ _. IsPatternMap patterns.now) }
    ensures short { OnOk result (length (table_text signs patterns.now) ≤ TABLE_MAX) }
    ensures too_long { IfErr result
        (λ e. e ≡ TooLong → TABLE_MAX < length (table_text signs patterns.now)) }
{
    let packed = enter_all(alloc, signs, patterns)?;
    packed_text(alloc, signs, patterns, &packed)
}

/// The packed table of patterns that were entered.
fn packed_text(
    alloc: Global,
    signs: u16,
    patterns: &PatternSet,
    packed: &PackedTrie,
) -> Result<Vec<u8>, TableError>
    requires signs { IsSignCount signs }
    requires known { SignsUpTo signs patterns.now }
    requires entered { IsEntered signs patterns.now packed.now.cells packed.now.outputs }
    ensures text { IfOk result (λ text. text.items ≡ table_text signs patterns.now) }
    ensures short { OnOk result (length (table_text signs patterns.now) ≤ TABLE_MAX) }
    ensures too_long { IfErr result
        (λ e. e ≡ TooLong → TABLE_MAX < length (table_text signs patterns.now)) }
{
    if is_too_long(packed) {
        return Err(TableError::TooLong);
    }
    let row = table_cells(alloc, signs, patterns, packed)?;
    let text = file_of(alloc, signs, &row, &packed.outputs)?;
    Ok(text)
}

/// Whether the table has more than [`TABLE_MAX`] bytes.
fn is_too_long(packed: &PackedTrie) -> bool
    ensures { IsTrue result
        ↔ (TABLE_MAX < HEAD_LEN + CELL_LEN * (top packed.now.cells.families + 1)
        + RECORD_LEN * length packed.now.outputs) }
{
    let top = packed.cells.top();
    let records = packed.outputs.len();
    if top >= TABLE_MAX || records > TABLE_MAX as u64 {
        return true;
    }
    HEAD_LEN + CELL_LEN * (top + 1) + RECORD_LEN * records as usize > TABLE_MAX
}

/// The file with these cells and records.
fn file_of(
    alloc: Global,
    signs: u16,
    cells: &[Cell],
    outputs: &Outputs,
) -> Result<Vec<u8>, AllocError>
    requires cells { length cells.now ≤ u32.MAX }
    requires records { length outputs.now ≤ u32.MAX }
    ensures { IfOk result (λ text. text.items ≡ file_of signs cells.now outputs.now) }
{
    let records = outputs.len();
    let size = HEAD_LEN + CELL_LEN * cells.len() + RECORD_LEN * records as usize;
    let mut text = Vec::with_capacity(alloc, size)?;
    text.extend_from_slice(SIGNATURE)?;
    push_u32(&mut text, u32::from(signs))?;
    push_u32(&mut text, cells.len() as u32)?;
    push_u32(&mut text, records as u32)?;
    push_cells(&mut text, cells)?;
    push_records(&mut text, outputs)?;
    Ok(text)
}

/// Appends the cells.
fn push_cells(text: &mut Vec<u8>, cells: &[Cell]) -> Result<(), AllocError>
    ensures { OnOk result (text.new.items ≡ text.old.items ++ flat_map cell_bytes cells.now) }
{
    for cell in cells {
        push_u16(text, cell.sign)?;
        push_u32(text, cell.child)?;
        push_u32(text, cell.head)?;
    }
    Ok(())
}

/// Appends the records.
fn push_records(text: &mut Vec<u8>, outputs: &Outputs) -> Result<(), AllocError>
    requires { length outputs.now ≤ u32.MAX }
    ensures { OnOk result (text.new.items ≡ text.old.items ++ flat_map record_bytes outputs.now) }
{
    for head in 1..outputs.len() + 1 {
        if let Some((value, dot, next)) = outputs.first(head) {
            text.push(value)?;
            text.push(dot)?;
            push_u32(text, next as u32)?;
        }
    }
    Ok(())
}
