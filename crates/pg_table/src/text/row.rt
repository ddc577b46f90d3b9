//! The row of cells of a table.
ghost use Rattle.std.specs.Prelude.{◌≡◌, ℕ, ◌+◌, ◌≤◌, List, length, IfOk, Some};
ghost use Rattle.std.specs.FinMap.{find};
ghost use Rattle.std.specs.Cmp.Lexicographic.{slice_cmp};
ghost use Rattle.std.specs.Ordering.{nat_cmp};
ghost use Rattle.pg_types.specs.declared.limits.TheConstants.{SIGNS_MAX};
ghost use Rattle.pg_types.specs.Inside.Signs.{SignsWithin};
ghost use Rattle.pg_types.specs.Placement.{top};
ghost use Rattle.pg_patterns.specs.Inside.PatternMaps.{SignsUpTo};
ghost use Rattle.pg_cells.specs.Inside.linked.AreValuedFamilies.{AreValuedFamilies};
ghost use Rattle.pg_table.specs.Inside.text.PackedTrie.{IsEntered};
ghost use Rattle.pg_table.specs.Inside.text.Rows.{HasHeads, IsPartRow, Fills, FillsSigns};
ghost use Rattle.pg_table.specs.Inside.text.Files.{table_cells, head_in};

use crate::parts::cell::Cell;
use crate::text::entering::PackedTrie;
use pg_cells::{Cells, step};
use pg_patterns::PatternSet;
use pg_types::Sign;
use std::alloc::{AllocError, Global};

/// A cell that no string has.
const UNUSED: Cell = Cell {
    sign: 0,
    child: 0,
    head: 0,
};

/// The cells of the table, from cell 0 to the greatest used one.
pub fn table_cells(
    alloc: Global,
    signs: u16,
    patterns: &PatternSet,
    packed: &PackedTrie,
) -> Result<Vec<Cell>, AllocError>
    requires known { SignsUpTo signs patterns.now }
    requires few { signs ≤ SIGNS_MAX }
    requires entered { IsEntered signs patterns.now packed.now.cells packed.now.outputs }
    requires cells { top packed.now.cells.families + 1 ≤ u32.MAX }
    requires records { length packed.now.outputs ≤ u32.MAX }
    ensures { IfOk result (λ row. row.items ≡ table_cells signs patterns.now) }
{
    let mut row = vec![in alloc; UNUSED; packed.cells.top() + 1]?;
    fill(signs, patterns, packed, &mut row);
    Ok(row)
}

/// Fills in the cells of all strings.
fn fill(signs: u16, patterns: &PatternSet, packed: &PackedTrie, row: &mut [Cell])
    requires known { SignsUpTo signs patterns.now }
    requires few { signs ≤ SIGNS_MAX }
    requires entered { IsEntered signs patterns.now packed.now.cells packed.now.outputs }
    requires cells { top packed.now.cells.families + 1 ≤ u32.MAX }
    requires records { length packed.now.outputs ≤ u32.MAX }
    requires row { IsPartRow packed.now.cells (head_in patterns.now) row.old }
    ensures { row.new ≡ table_cells signs patterns.now }
{
    fill_signs(signs, &packed.cells, row);
    fill_patterns(patterns, packed, row);
}

/// Fills in the cells of the strings of one sign, up to the greatest.
fn fill_signs(signs: u16, cells: &Cells<u64>, row: &mut [Cell])
    requires few { signs ≤ SIGNS_MAX }
    requires held { AreValuedFamilies cells.now }
    requires signs { signs ≤ cells.now.signs }
    requires size { length row.old ≡ top cells.now.families + 1 }
    requires cells { top cells.now.families + 1 ≤ u32.MAX }
    requires values { (q : List ℕ) (v : ℕ) → find (slice_cmp nat_cmp) q cells.now.values ≡ Some v
        → v ≤ u32.MAX }
    ensures { (heads : List ℕ → ℕ) → HasHeads cells.now heads → IsPartRow cells.now heads row.old →
        FillsSigns cells.now heads signs row.new }
{
    'signs: for s in 1..signs + 1 {
        fill_string(cells, &[s], row);
    }
}

/// Fills in the cells of the strings of patterns, where those of one sign are filled in.
fn fill_patterns(patterns: &PatternSet, packed: &PackedTrie, row: &mut [Cell])
    requires known { SignsUpTo packed.now.cells.signs patterns.now }
    requires entered { IsEntered packed.now.cells.signs patterns.now packed.now.cells
        packed.now.outputs }
    requires cells { top packed.now.cells.families + 1 ≤ u32.MAX }
    requires records { length packed.now.outputs ≤ u32.MAX }
    requires signs { FillsSigns packed.now.cells (head_in patterns.now) packed.now.cells.signs
        row.old }
    ensures { row.new ≡ table_cells packed.now.cells.signs patterns.now }
{
    'patterns: for i in 0..patterns.len() {
        fill_string(&packed.cells, patterns.entry(i).signs, row);
    }
}

/// Fills in the cells of a string and of its fronts.
fn fill_string(cells: &Cells<u64>, signs: &[Sign], row: &mut [Cell])
    requires held { AreValuedFamilies cells.now }
    requires signs { SignsWithin cells.now.signs signs.now }
    requires size { length row.old ≡ top cells.now.families + 1 }
    requires cells { top cells.now.families + 1 ≤ u32.MAX }
    requires values { (q : List ℕ) (v : ℕ) → find (slice_cmp nat_cmp) q cells.now.values ≡ Some v
        → v ≤ u32.MAX }
    ensures { (heads : List ℕ → ℕ) → HasHeads cells.now heads → IsPartRow cells.now heads row.old →
        Fills cells.now heads signs.now (length signs.now) row.old row.new }
{
    let mut at = None;
    for s in signs {
        let Some(cell) = step(cells, at, *s) else {
            return;
        };
        row[cell] = Cell {
            sign: *s,
            child: cells.child(cell) as u32,
            head: cells.value(cell) as u32,
        };
        at = Some(cell);
    }
}
