//! The strings that lose their cells when nothing is hopeless any more.
ghost use Rattle.std.specs.Prelude.{◌≡◌, ℕ, ◌+◌, ◌≤◌, Bool, List, [], ◌∷◌, ◌++◌, length, Some, if◌then◌else◌};
ghost use Rattle.pg_types.specs.declared.limits.TheConstants.{PATTERN_SIGNS_MAX, SIGNS_MAX};
ghost use Rattle.pg_types.specs.Inside.Placing.{cell_of};
ghost use Rattle.pg_cells.specs.Inside.linked.AreValuedFamilies.{AreValuedFamilies};
ghost use Rattle.pg_cells.specs.Inside.linked.Members.{IsBefore, goes_on};
ghost use Rattle.pg_trie.specs.Inside.PrunedFamilies.{Drops, IsKeep, Prunes, PrunesBelow};
ghost use Rattle.pg_trie.specs.Inside.Strings.{HasShortStrings};

use crate::lists::head::Head;
use pg_cells::{Cells, step};
use pg_types::{PATTERN_SIGNS_MAX, Sign};

// Takes away the cell of a string of several signs, where it has no list and no string goes on from
// it. `before` is the sign before `s` in its family, 0 for none. The answer is the sign before the
// next one of the family: `s` where it stays, else `before`.
fn remove_blank(cells: &mut Cells<Head>, parent: usize, cell: usize, before: Sign, s: Sign) -> Sign
    requires held { AreValuedFamilies cells.old }
    requires cell { (q : List ℕ) × ((cell_of cells.old.families q ≡ Some parent)
        × (cell_of cells.old.families (q ++ s ∷ []) ≡ Some cell)) }
    requires before { (q : List ℕ) → cell_of cells.old.families q ≡ Some parent
        → IsBefore cells.old.values q s before }
    ensures drops { (q : List ℕ) → cell_of cells.old.families q ≡ Some parent
        → Drops cells.old cells.new (q ++ s ∷ []) }
    ensures last { (q : List ℕ) → cell_of cells.old.families q ≡ Some parent
        → result ≡ (if goes_on cells.new.values q s then s else before) }
{
    if cells.value(cell).number() == 0 && cells.child(cell) == 0 {
        cells.remove_behind(parent, before, s);
        return before;
    }
    s
}

// Takes away the cells of all strings that go on from the cell's string and have no list, where no
// string that stays goes on from them. A string below it has at most `more` signs more.
fn prune_below(cells: &mut Cells<Head>, cell: usize, more: usize)
    requires held { AreValuedFamilies cells.old }
    requires short { HasShortStrings cells.old }
    requires cell { (q : List ℕ) × ((cell_of cells.old.families q ≡ Some cell)
        × (PATTERN_SIGNS_MAX ≤ length q + more)) }
    ensures { (q : List ℕ) → cell_of cells.old.families q ≡ Some cell
        → PrunesBelow cells.old cells.new q }
{
    let mut before = 0;
    let mut s = cells.first_sign(cell);
    while s != 0 {
        let Some(below) = step(cells, Some(cell), s) else {
            return;
        };
        let next = cells.next_sign(below);
        prune_below(cells, below, more - 1);
        before = remove_blank(cells, cell, below, before, s);
        s = next;
    }
}

/// Takes away the cells of all strings that have several signs and no list, where no string that
/// stays goes on from them.
pub fn prune(cells: &mut Cells<Head>)
    requires held { AreValuedFamilies cells.old }
    requires short { HasShortStrings cells.old }
    requires signs { cells.old.signs ≤ SIGNS_MAX }
    ensures { (keep : List ℕ → Bool) → IsKeep keep cells.old → Prunes keep cells.old cells.new }
{
    for s in 1..cells.signs() + 1 {
        prune_below(cells, usize::from(s), PATTERN_SIGNS_MAX);
    }
}
