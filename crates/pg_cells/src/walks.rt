//! Walks from string to string, and the entering of a string.
ghost use Rattle.std.specs.Prelude.{◌≡◌, ◌<◌, ◌≤◌, ℕ, ◌+◌, List, [], ◌∷◌, ◌++◌, length, take, All, Some, None, IfOk, OnOk, OnErr};
ghost use Rattle.std.specs.FinMap.{find};
ghost use Rattle.std.specs.Cmp.Lexicographic.{slice_cmp};
ghost use Rattle.std.specs.Ordering.{nat_cmp};
ghost use Rattle.pg_types.specs.Inside.Signs.{IsTableSign};
ghost use Rattle.pg_types.specs.Placement.{enter};
ghost use Rattle.pg_types.specs.Inside.Placing.{cell_of};
ghost use Rattle.pg_cells.specs.Inside.linked.AreValuedFamilies.{AreValuedFamilies};
ghost use Rattle.pg_cells.specs.Inside.linked.CellValues.{IsTaken};
ghost use Rattle.pg_cells.specs.Inside.linked.Walks.{IsAt, EndsBefore, NeedsNoCell, Steps, AddsBlanks};

use crate::Cells;
use pg_types::Sign;
use std::alloc::AllocError;

/// Goes from a cell, or from the start for `None`, to the cell of the string with the sign added.
/// `None` tells that no string that begins with this one has a value.
pub fn step<V: Copy>(cells: &Cells<V>, at: Option<usize>, s: Sign) -> Option<usize>
    requires at { (q : List ℕ) × (IsAt cells.now.families at q) }
    requires sign { IsTableSign cells.now.signs s }
    ensures cell { (q : List ℕ) → IsAt cells.now.families at q
        → result ≡ cell_of cells.now.families (q ++ s ∷ []) }
    ensures none { (q : List ℕ) → IsAt cells.now.families at q → result ≡ None →
        EndsBefore cells.now.values (q ++ s ∷ []) }
{
    let Some(cell) = at else {
        return Some(cells.root_cell(s));
    };
    let base = cells.child(cell);
    if base == 0 {
        return None;
    }
    cells.find(base, s)
}

// Goes from a cell to that of its string with the sign added, which is new where no string has it.
fn step_or_add<V: Copy>(
    cells: &mut Cells<V>,
    parent: usize,
    s: Sign,
    blank: V,
) -> Result<usize, AllocError>
    requires held { AreValuedFamilies cells.old }
    requires parent { IsTaken cells.old.families parent }
    requires sign { IsTableSign cells.old.signs s }
    ensures steps { (q : List ℕ) → cell_of cells.old.families q ≡ Some parent →
        OnOk result (Steps cells.old cells.new q s blank) }
    ensures cell { (q : List ℕ) → cell_of cells.old.families q ≡ Some parent →
        IfOk result (λ cell. cell_of cells.new.families (q ++ s ∷ []) ≡ Some cell) }
    ensures err { OnErr result (cells.new ≡ cells.old) }
    ensures ends { (q : List ℕ) → cell_of cells.old.families q ≡ Some parent →
        OnErr result (EndsBefore cells.old.values (q ++ s ∷ [])) }
    ensures kept { AreValuedFamilies cells.new }
{
    if let Some(cell) = step(cells, Some(parent), s) {
        return Ok(cell);
    }
    cells.add(parent, s, blank)
}

// How many signs the longest prefix has that has a cell, and its cell. It only reads, so the walk
// is short.
fn known_prefix<V: Copy>(cells: &Cells<V>, signs: &[Sign]) -> (usize, usize)
    requires some { 0 < length signs.now }
    requires signs { All (IsTableSign cells.now.signs) signs.now }
    ensures count { (0 < result.0) × (result.0 ≤ length signs.now) }
    ensures cell { cell_of cells.now.families (take result.0 signs.now) ≡ Some result.1 }
    ensures known { NeedsNoCell cells.now.signs cells.now.families signs.now result.0 }
    ensures held { AreValuedFamilies cells.now }
{
    let mut cell = cells.root_cell(signs[0]);
    for k in 1..signs.len() {
        let Some(next) = step(cells, Some(cell), signs[k]) else {
            return (k, cell);
        };
        cell = next;
    }
    (signs.len(), cell)
}

/// Gives each prefix of the string a cell, a new one with the value `blank`, and answers the cell
/// of the string.
///
/// After an error a shorter prefix of the string is entered, and the rest is not. There is no error
/// where the string has its cell already.
pub fn enter<V: Copy>(cells: &mut Cells<V>, signs: &[Sign], blank: V) -> Result<usize, AllocError>
    requires some { 0 < length signs.now }
    requires signs { All (IsTableSign cells.old.signs) signs.now }
    ensures cell { IfOk result (λ cell. cell_of cells.new.families signs.now ≡ Some cell) }
    ensures families { OnOk result
        (cells.new.families
        ≡ enter cells.old.signs cells.old.families signs.now) }
    ensures part { OnErr result ((k : ℕ) × (k < length signs.now)
        × (cells.new.families
        ≡ enter cells.old.signs cells.old.families (take k signs.now))) }
    ensures blanks { AddsBlanks signs.now blank cells.old.values cells.new.values }
    ensures held { AreValuedFamilies cells.new }
    ensures signs { cells.new.signs ≡ cells.old.signs }
    ensures err { OnErr result (find (slice_cmp nat_cmp) signs.now cells.old.values ≡ None) }
{
    let (known, mut cell) = known_prefix(cells, signs);
    for k in known..signs.len() {
        cell = step_or_add(cells, cell, signs[k], blank)?;
    }
    Ok(cell)
}
