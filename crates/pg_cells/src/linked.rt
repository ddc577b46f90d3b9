//! The families of a trie with links from sign to sign.
ghost use Rattle.std.specs.Prelude.{◌≡◌, ℕ, ◌+◌, ◌<◌, ◌^◌, List, [], ◌∷◌, ◌++◌, Some, None, IfOk, IfSome};
ghost use Rattle.std.specs.FinMap.{find};
ghost use Rattle.std.specs.Cmp.Lexicographic.{slice_cmp};
ghost use Rattle.std.specs.Ordering.{nat_cmp};
ghost use Rattle.pg_types.specs.Inside.Signs.{IsSignCount, IsTableSign};
ghost use Rattle.pg_types.specs.Placement.{top, base_of};
ghost use Rattle.pg_types.specs.Inside.PlacementSteps.{taken_count};
ghost use Rattle.pg_types.specs.Inside.Placing.{cell_of};
ghost use Rattle.pg_cells.specs.Inside.linked.ValuedFamilies.{ValuedFamilies};
ghost use Rattle.pg_cells.specs.Inside.linked.AreValuedFamilies.{AreValuedFamilies};
ghost use Rattle.pg_cells.specs.Inside.families.Adding.{AddsSign, CanTakeSign};
ghost use Rattle.pg_cells.specs.Inside.linked.CellValues.{FindsCell, GivesBase, HasValue, IsBase, IsTaken, SetsValue};
ghost use Rattle.pg_cells.specs.Inside.families.Removing.{CanRemoveSign, RemovesSign};
ghost use Rattle.pg_cells.specs.Inside.linked.Members.{IsNextSign, IsBefore};
ghost use Rattle.pg_cells.specs.Inside.families.Root.{IsRootAlone};
ghost use Rattle.pg_cells.specs.Inside.linked.Walks.{EndsBefore};

mod links;

use crate::families::Placed;
use crate::linked::links::{is_alone, link, list_moving, sign_after, sign_before};
use crate::store::member::Member;
use pg_types::{SIGNS_MAX, Sign};
use std::alloc::{AllocError, Global};
use std::marker::Model;

/// Families of cells, each cell with a value. The base of a family of up to `FEW_SIGNS` signs is
/// sought from 1 on. For a greater one the search begins at least `FAR_BELOW` below the greatest
/// taken cell.
#[derive(Drop)]
pub struct Cells<V: Copy> {
    placed: Placed<V>,
    members: Vec<Sign>,
}

impl<V: Copy> Model for Cells<V> {
    ghost use Rattle.pg_cells.specs.Inside.linked.ValuedFamilies.{ValuedFamilies, valued_families_code};
    ghost use Rattle.pg_cells.specs.Inside.linked.Links.{values_alone, AreLinks};

    ghost Value = { ValuedFamilies V };

    ghost coded = { valued_families_code V.code };

    ghost view = { λ c. values_alone c.placed };

    ghost invariant = { λ c. AreLinks c.placed };
}

impl<V: Copy> Cells<V> {
    /// The root family alone, each value `blank`.
    pub fn new(alloc: Global, signs: u16, blank: V) -> Result<Cells<V>, AllocError>
        requires { IsSignCount signs }
        ensures { IfOk result (λ c. IsRootAlone signs blank c) }
    {
        let placed = Placed::new(alloc, signs, Member::alone(blank))?;
        Ok(Cells {
            placed,
            members: Vec::new(alloc),
        })
    }

    /// The number of signs of the table.
    pub fn signs(&self) -> u16
        ensures signs { result ≡ self.now.signs }
        ensures held { AreValuedFamilies self.now }
    {
        self.placed.signs()
    }

    /// The cell of the sign in the root. The root has every sign.
    pub(crate) fn root_cell(&self, s: Sign) -> usize
        requires { IsTableSign self.now.signs s }
        ensures cell { cell_of self.now.families (s ∷ []) ≡ Some result }
        ensures held { AreValuedFamilies self.now }
    {
        let _signs = self.signs();
        usize::from(s)
    }

    /// The cell of the sign in the family with the base, or `None` where the family lacks the sign.
    /// Then no string that begins with this one has a value.
    pub fn find(&self, base: usize, s: Sign) -> Option<usize>
        requires base { IsBase self.now.families base }
        requires sign { IsTableSign self.now.signs s }
        ensures cell { FindsCell self.now.families base s result }
        ensures none { (p : List ℕ) → base_of self.now.families p ≡ Some base → result ≡ None →
            EndsBefore self.now.values (p ++ s ∷ []) }
    {
        self.placed.find(base, s)
    }

    /// The base of the family below the cell's string, 0 for none. It tells whether a longer string
    /// has a value.
    pub fn child(&self, cell: usize) -> usize
        requires { IsTaken self.now.families cell }
        ensures base { GivesBase self.now.families cell result }
        ensures none { (q : List ℕ) → cell_of self.now.families q ≡ Some cell
            → result ≡ 0 → (x : ℕ) →
            EndsBefore self.now.values (q ++ x ∷ []) }
        ensures some { (q : List ℕ) → cell_of self.now.families q ≡ Some cell → 0 < result →
            (x : ℕ) × (v : V) × (find (slice_cmp nat_cmp) (q ++ x ∷ []) self.now.values ≡ Some v) }
    {
        self.placed.child(cell)
    }

    /// The first sign of the family below the cell's string, 0 for none.
    pub fn first_sign(&self, cell: usize) -> Sign
        requires { IsTaken self.now.families cell }
        ensures { (q : List ℕ) → cell_of self.now.families q ≡ Some cell
            → IsNextSign self.now.values q 0 result }
    {
        self.placed.value(cell).first
    }

    /// The next sign of the family that the cell is in, 0 for none.
    pub fn next_sign(&self, cell: usize) -> Sign
        requires { IsTaken self.now.families cell }
        ensures { (p : List ℕ) (s : ℕ) → cell_of self.now.families (p ++ s ∷ []) ≡ Some cell →
            IsNextSign self.now.values p s result }
    {
        let signs = self.placed.signs();
        if cell < usize::from(signs) {
            cell as Sign + 1
        } else if cell == usize::from(signs) {
            0
        } else {
            self.placed.value(cell).next
        }
    }

    /// The value of the cell's string.
    pub fn value(&self, cell: usize) -> V
        requires { IsTaken self.now.families cell }
        ensures { HasValue self.now cell result }
    {
        self.placed.value(cell).value
    }

    /// The value of the string that has the cell, or `None` where no string has it.
    pub fn value_if_taken(&self, cell: usize) -> Option<V>
        ensures some { IfSome result (λ v. (q : List ℕ) × (cell_of self.now.families q ≡ Some cell)
            × (find (slice_cmp nat_cmp) q self.now.values ≡ Some v)) }
        ensures none { result ≡ None → (q : List ℕ) → cell_of self.now.families q ≡ Some cell → ⊥ }
    {
        if self.placed.store().is_taken(cell) {
            Some(self.placed.value(cell).value)
        } else {
            None
        }
    }

    /// Adds the sign to the family below the parent's string, with the value, and gives its cell.
    ///
    /// A new family is put at the least base that fits, from the lowest one on that is tried for
    /// its number of signs. A sign joins a family in place where its cell is free. Else the family
    /// gives up its cells and is put anew by the same rule. The number of a cell of this family
    /// that was got before may then be that of another string's cell. The parent and each other
    /// string outside of the family keep their cells. After an error every string, cell and value
    /// is as before.
    pub fn add(&mut self, parent: usize, s: Sign, v: V) -> Result<usize, AllocError>
        requires { CanTakeSign self.old.signs self.old.families parent s }
        ensures { AddsSign self.old self.new parent s v result }
    {
        let base = self.placed.child(parent);
        let before = sign_before(&self.placed, parent, base, s);
        let after = sign_after(&self.placed, parent, base, before);
        list_moving(&self.placed, parent, base, s, &mut self.members)?;
        let member = Member {
            value: v,
            next: after,
            first: 0,
        };
        let cell = self.placed.add(parent, s, member, self.members.as_slice())?;
        link(&mut self.placed, parent, before, s);
        Ok(cell)
    }

    /// Takes the sign away from the family below the parent's string. A family without a sign is
    /// gone. Every other string keeps its cell.
    pub fn remove(&mut self, parent: usize, s: Sign)
        requires { CanRemoveSign self.old.families parent s }
        ensures { RemovesSign self.old self.new parent s }
    {
        let base = self.placed.child(parent);
        let before = sign_before(&self.placed, parent, base, s);
        self.remove_behind(parent, before, s);
    }

    /// Takes the sign away as [`Cells::remove`] does, where `before` is the sign before it in
    /// its family, 0 for none. So that one is not sought.
    pub fn remove_behind(&mut self, parent: usize, before: Sign, s: Sign)
        requires can { CanRemoveSign self.old.families parent s }
        requires before { (q : List ℕ) → cell_of self.old.families q ≡ Some parent →
            IsBefore self.old.values q s before }
        ensures { RemovesSign self.old self.new parent s }
    {
        let base = self.placed.child(parent);
        let after = sign_after(&self.placed, parent, base, s);
        self.placed.remove(parent, s, is_alone(before, after));
        link(&mut self.placed, parent, before, after);
    }

    /// Gives the cell's string the value.
    pub fn set_value(&mut self, cell: usize, v: V)
        requires { IsTaken self.old.families cell }
        ensures { SetsValue self.old self.new cell v }
    {
        let member = self.placed.value(cell);
        self.placed.set_value(cell, Member { value: v, ..member });
    }

    /// The root family alone, each value `blank`.
    pub fn reset(&mut self, blank: V)
        ensures { IsRootAlone self.old.signs blank self.new }
    {
        self.placed.reset(Member::alone(blank));
    }

    /// The greatest taken cell.
    pub fn top(&self) -> usize
        ensures top { result ≡ top self.now.families }
        ensures small { result < 2 ^ 32 }
    {
        self.placed.store().top()
    }

    /// The number of taken cells.
    pub fn taken(&self) -> usize
        ensures { result ≡ taken_count self.now.families }
    {
        self.placed.store().taken()
    }
}
