//! The search for the least counted string above a floor.
ghost use Rattle.std.specs.Prelude.{◌≡◌, ◌<◌, ◌≤◌, ◌-◌, ℕ, List, [], ◌∷◌, ◌++◌, length, Some, None, MatchOption};
ghost use Rattle.pg_types.specs.Placement.{base_of};
ghost use Rattle.pg_types.specs.Inside.Placing.{cell_of};
ghost use Rattle.pg_cells.specs.Inside.linked.AreValuedFamilies.{AreValuedFamilies};
ghost use Rattle.pg_cells.specs.Inside.linked.Members.{IsNextSign};
ghost use Rattle.pg_count.specs.Inside.Floors.{first_sign};
ghost use Rattle.pg_count.specs.Inside.Least.{NoneAt, NoneAbove, LeastAt, LeastAbove};

use crate::floor::{first_of, passes, rest_of};
use pg_cells::Cells;
use pg_types::Sign;

/// Cells of strings, each with its good and its bad sum where the string is counted.
pub type CountedCells = Cells<Option<(u64, u64)>>;

// The sign after one of the signs of the family with the base, 0 for none.
fn sign_after(cells: &CountedCells, base: usize, s: Sign) -> Sign
    requires held { AreValuedFamilies cells.now }
    requires base { (p : List ℕ) × (cell : ℕ)
        × ((base_of cells.now.families p ≡ Some base)
        × (cell_of cells.now.families (p ++ s ∷ []) ≡ Some cell)) }
    ensures { (p : List ℕ) → base_of cells.now.families p ≡ Some base
        → IsNextSign cells.now.values p s result }
{
    match cells.find(base, s) {
        Some(cell) => cells.next_sign(cell),
        None => 0,
    }
}

// The least sign of the family with the base that is not below another, 0 for none. It is that sign
// itself, where the family has it; else it is sought from the family's first sign on.
fn sign_from(cells: &CountedCells, base: usize, first: Sign, from: Sign) -> Sign
    requires held { AreValuedFamilies cells.now }
    requires base { (p : List ℕ) × ((base_of cells.now.families p ≡ Some base)
        × IsNextSign cells.now.values p 0 first) }
    requires from { 1 ≤ from }
    ensures { (p : List ℕ) → base_of cells.now.families p ≡ Some base →
        IsNextSign cells.now.values p (from - 1) result }
{
    if cells.signs() < from {
        return 0;
    }
    if cells.find(base, from).is_some() {
        return from;
    }
    let mut s = first;
    while s != 0 && s < from {
        s = sign_after(cells, base, s);
    }
    s
}

/// Finds the least counted string above the floor among those that go on from a family's string by
/// as many signs as the path has. The family has the base, and `first` is the first of its signs.
/// The path becomes the signs behind the family's string, and the answer is the sums. Where there is
/// no such string, nothing is said of the path. The search follows the signs of the families.
#[cycle(least)]
pub fn least(
    cells: &CountedCells,
    base: usize,
    first: Sign,
    floor: &[Sign],
    path: &mut [Sign],
) -> Option<(u64, u64)>
    requires held { AreValuedFamilies cells.now }
    requires base { (p : List ℕ) × ((base_of cells.now.families p ≡ Some base)
        × IsNextSign cells.now.values p 0 first) }
    requires some { 0 < length path.old }
    ensures { (p : List ℕ) → base_of cells.now.families p ≡ Some base →
        MatchOption result (NoneAbove cells.now.values p floor.now (length path.old))
        (λ sums. LeastAbove cells.now.values p floor.now path.new sums) }
{
    let mut s = sign_from(cells, base, first, first_of(floor));
    while s != 0 {
        let cell = cells.find(base, s)?;
        if let Some(sums) = least_at(cells, cell, s, floor, path) {
            return Some(sums);
        }
        s = cells.next_sign(cell);
    }
    None
}

// The same among the strings that go on by the sign, whose string has the cell.
#[cycle(least)]
fn least_at(
    cells: &CountedCells,
    cell: usize,
    s: Sign,
    floor: &[Sign],
    path: &mut [Sign],
) -> Option<(u64, u64)>
    requires held { AreValuedFamilies cells.now }
    requires cell { (p : List ℕ) × (cell_of cells.now.families (p ++ s ∷ []) ≡ Some cell) }
    requires some { 0 < length path.old }
    requires from { first_sign floor.now ≤ s }
    requires sign { 1 ≤ s }
    ensures { (p : List ℕ) → cell_of cells.now.families (p ++ s ∷ []) ≡ Some cell →
        MatchOption result (NoneAt cells.now.values p floor.now (length path.old) s)
        (λ sums. LeastAt cells.now.values p floor.now s path.new sums) }
{
    if path.len() == 1 {
        return last_at(cells, cell, s, floor, path);
    }
    let below = cells.child(cell);
    if below == 0 {
        return None;
    }
    let first = cells.first_sign(cell);
    match least(cells, below, first, rest_of(floor, s), &mut path[1..]) {
        None => None,
        Some(sums) => {
            path[0] = s;
            Some(sums)
        }
    }
}

// The same where the sign is the last.
fn last_at(
    cells: &CountedCells,
    cell: usize,
    s: Sign,
    floor: &[Sign],
    path: &mut [Sign],
) -> Option<(u64, u64)>
    requires cell { (p : List ℕ) × (cell_of cells.now.families (p ++ s ∷ []) ≡ Some cell) }
    requires one { length path.old ≡ 1 }
    requires sign { 1 ≤ s }
    ensures { (p : List ℕ) → cell_of cells.now.families (p ++ s ∷ []) ≡ Some cell →
        MatchOption result (NoneAt cells.now.values p floor.now 1 s)
        (λ sums. LeastAt cells.now.values p floor.now s path.new sums) }
{
    if !passes(floor, s) {
        return None;
    }
    let sums = cells.value(cell)?;
    path[0] = s;
    Some(sums)
}
