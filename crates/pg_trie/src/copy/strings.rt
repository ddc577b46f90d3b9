//! The strings that have a cell.
ghost use Rattle.std.specs.Prelude.{◌≡◌, ℕ, ◌+◌, ◌<◌, ◌≤◌, List, [], ◌∷◌, ◌++◌, length, slice_get, Some, IfOk, OnOk};
ghost use Rattle.std.specs.FinMap.{find};
ghost use Rattle.std.specs.Cmp.Lexicographic.{slice_cmp};
ghost use Rattle.std.specs.Ordering.{nat_cmp};
ghost use Rattle.pg_types.specs.declared.limits.TheConstants.{PATTERN_SIGNS_MAX, SIGNS_MAX};
ghost use Rattle.pg_types.specs.Inside.Signs.{SignsWithin};
ghost use Rattle.pg_types.specs.Placement.{base_of};
ghost use Rattle.pg_types.specs.Inside.Placing.{cell_of};
ghost use Rattle.pg_cells.specs.Inside.linked.AreValuedFamilies.{AreValuedFamilies};
ghost use Rattle.pg_cells.specs.Inside.linked.Members.{IsNextSign};
ghost use Rattle.pg_trie.specs.Inside.Strings.{HasShortStrings, IsString, PutsBelow, AreStrings};

use crate::lists::head::Head;
use pg_cells::{Cells, step};
use pg_patterns::DottedSigns;
use pg_types::{EDGE, PATTERN_SIGNS_MAX, Sign};
use std::alloc::{AllocError, Global};

/// The cell of a string, or `None` where it has none.
pub fn find_cell(cells: &Cells<Head>, signs: &[Sign]) -> Option<usize>
    requires held { AreValuedFamilies cells.now }
    requires signs { SignsWithin cells.now.signs signs.now }
    ensures { result ≡ cell_of cells.now.families signs.now }
{
    let mut at = None;
    for s in signs {
        at = Some(step(cells, at, *s)?);
    }
    at
}

/// The value of a string that has a cell.
pub fn value_of(cells: &Cells<Head>, signs: &[Sign]) -> u64
    requires held { AreValuedFamilies cells.now }
    requires signs { SignsWithin cells.now.signs signs.now }
    ensures { (v : ℕ) → find (slice_cmp nat_cmp) signs.now cells.now.values ≡ Some v → result ≡ v }
{
    match find_cell(cells, signs) {
        Some(cell) => cells.value(cell).number(),
        None => 0,
    }
}

// The prefix with one sign more, with the dot 0.
fn longer(prefix: &[Sign], s: Sign) -> DottedSigns
    requires { length prefix.now < PATTERN_SIGNS_MAX }
    ensures { result ≡ (prefix.now ++ s ∷ [], 0) }
{
    let mut signs = [0; PATTERN_SIGNS_MAX];
    signs[..prefix.len()].copy_from_slice(prefix);
    signs[prefix.len()] = s;
    DottedSigns::new(&signs[..prefix.len() + 1], 0)
}

// Puts the strings of the family with the base and the first sign behind the others. It goes along
// the signs of the family.
fn push_family(
    cells: &Cells<Head>,
    prefix: &[Sign],
    base: usize,
    first: Sign,
    strings: &mut Vec<DottedSigns>,
) -> Result<(), AllocError>
    requires base { base_of cells.now.families prefix.now ≡ Some base }
    requires first { IsNextSign cells.now.values prefix.now 0 first }
    requires short { HasShortStrings cells.now }
    requires held { AreValuedFamilies cells.now }
    ensures { OnOk result
        (PutsBelow cells.now prefix.now (cells.now.signs + 1) strings.old.items strings.new.items) }
{
    let mut s = first;
    while s != 0 {
        let Some(cell) = cells.find(base, s) else {
            return Ok(());
        };
        strings.push(longer(prefix, s))?;
        s = cells.next_sign(cell);
    }
    Ok(())
}

// Puts the strings with one sign more than that with the number `i` behind the others.
fn push_below(
    cells: &Cells<Head>,
    strings: &mut Vec<DottedSigns>,
    i: usize,
) -> Result<(), AllocError>
    requires inside { i < length strings.old.items }
    requires sound { (k : List ℕ × ℕ) → slice_get strings.old.items i ≡ Some k
        → IsString cells.now k.0 }
    requires held { AreValuedFamilies cells.now }
    requires short { HasShortStrings cells.now }
    requires signs { cells.now.signs ≤ SIGNS_MAX }
    ensures { OnOk result ((k : List ℕ × ℕ) → slice_get strings.old.items i ≡ Some k →
        PutsBelow cells.now k.0 (cells.now.signs + 1) strings.old.items strings.new.items) }
{
    let prefix = DottedSigns::new(strings[i].signs(), 0);
    let Some(cell) = find_cell(cells, prefix.signs()) else {
        return Ok(());
    };
    match cells.child(cell) {
        0 => Ok(()),
        base => push_family(cells, prefix.signs(), base, cells.first_sign(cell), strings),
    }
}

/// The strings that have a cell, each before those with one sign more.
pub fn strings(alloc: Global, cells: &Cells<Head>) -> Result<Vec<DottedSigns>, AllocError>
    requires held { AreValuedFamilies cells.now }
    requires short { HasShortStrings cells.now }
    requires signs { cells.now.signs ≤ SIGNS_MAX }
    ensures { IfOk result (λ strings. AreStrings cells.now strings.items) }
{
    let mut strings = Vec::new(alloc);
    push_family(cells, &[], 0, EDGE, &mut strings)?;
    for i in 0..usize::MAX {
        if i == strings.len() {
            return Ok(strings);
        }
        push_below(cells, &mut strings, i)?;
    }
    Ok(strings)
}
