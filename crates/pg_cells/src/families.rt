//! The families of a trie, each with its cells at its base.
ghost use Rattle.std.specs.Prelude.{◌≡◌, ℕ, ◌≤◌, List, Some, IfOk, false, MatchBool};
ghost use Rattle.pg_types.specs.Inside.Signs.{IsSignCount, IsTableSign};
ghost use Rattle.pg_types.specs.Inside.Placing.{cell_of, joins_at};
ghost use Rattle.pg_cells.specs.Inside.linked.ValuedFamilies.{ValuedFamilies, trie_in};
ghost use Rattle.pg_cells.specs.Inside.families.Adding.{AddsSign, CanTakeSign};
ghost use Rattle.pg_cells.specs.Inside.linked.CellValues.{FindsCell, GivesBase, HasValue, IsBase, IsTaken, SetsValue};
ghost use Rattle.pg_cells.specs.Inside.families.Removing.{CanRemoveSign, RemovesSign};
ghost use Rattle.pg_cells.specs.Inside.store.CellRows.{FitsCell};
ghost use Rattle.pg_cells.specs.Inside.store.Store.{member_code};
ghost use Rattle.pg_cells.specs.Inside.linked.Members.{ArePassing, ArePositive, IsAlone, HasOther, has_sign};
ghost use Rattle.pg_cells.specs.Inside.families.Layouts.{AreKept};
ghost use Rattle.pg_cells.specs.Inside.families.OneTrie.{TrieOfRow, TrieOfRow-prop};
ghost use Rattle.pg_cells.specs.Inside.families.Root.{IsRootAlone};

mod adding;
mod moves;
mod place;
mod prune;
mod root;

use crate::families::adding::{add_slot, joins};
use crate::families::prune::drop_family;
use crate::families::root::take_root;
use crate::store::Store;
use crate::store::fit::Slot;
use crate::store::member::Member;
use pg_types::{SIGNS_MAX, Sign};
use std::alloc::{AllocError, Global};
use std::marker::Model;

/// Families of cells, each cell with a value, placed as [`Cells`](crate::Cells) says.
/// The links from sign to sign are a part of the values here.
#[derive(Drop)]
pub struct Placed<V: Copy> {
    signs: u16,
    store: Store<V>,
    moving: Vec<Slot<Member<V>>>,
    ghost layout: { TrieOfRow signs store } by { TrieOfRow-prop (member_code V.code) signs store },
}

impl<V: Copy> Model for Placed<V> {
    ghost use Rattle.pg_cells.specs.declared.store.member.Member.{Member};
    ghost use Rattle.pg_cells.specs.Inside.store.Store.{member_code};
    ghost use Rattle.pg_cells.specs.Inside.linked.ValuedFamilies.{ValuedFamilies, valued_families_code};
    ghost use Rattle.pg_cells.specs.Inside.families.Layouts.{AreKept};

    ghost Value = { ValuedFamilies (Member V) };

    ghost coded = { valued_families_code (member_code V.code) };

    ghost view = { λ c. record {
      signs = c.signs;
      families = c.layout.0.families;
      values = c.layout.0.values;
    } };

    ghost invariant = { λ c. AreKept c.signs c.store c.layout.0 };
}

impl<V: Copy> Placed<V> {
    /// The root family alone, each value `blank`.
    pub fn new(alloc: Global, signs: u16, blank: Member<V>) -> Result<Placed<V>, AllocError>
        requires signs { IsSignCount signs }
        requires fits { FitsCell blank }
        ensures { IfOk result (λ c. IsRootAlone signs blank c) }
    {
        let mut store = Store::new(alloc, signs, blank.value)?;
        store.grow(signs as usize + 1, blank.value)?;
        take_root(&mut store, signs, blank);
        store.set_base(0, true);
        Ok(Placed {
            signs,
            store,
            moving: Vec::new(alloc),
        })
    }

    /// The number of signs of the table.
    pub fn signs(&self) -> u16
        ensures { result ≡ self.now.signs }
    {
        self.signs
    }

    /// The cell of the sign in the family with the base, or `None` where the family lacks the sign.
    pub fn find(&self, base: usize, s: Sign) -> Option<usize>
        requires base { IsBase self.now.families base }
        requires sign { IsTableSign self.now.signs s }
        ensures cell { FindsCell self.now.families base s result }
    {
        let store = &self.store;
        let cell = base + s as usize;
        if store.has_sign(cell, s) {
            Some(cell)
        } else {
            None
        }
    }

    /// The base of the family below the cell's string, 0 for none.
    pub fn child(&self, cell: usize) -> usize
        requires { IsTaken self.now.families cell }
        ensures base { GivesBase self.now.families cell result }
        ensures few { self.now.signs ≤ SIGNS_MAX }
    {
        self.store.child(cell)
    }

    /// The value of the cell's string.
    pub fn value(&self, cell: usize) -> Member<V>
        requires { IsTaken self.now.families cell }
        ensures value { HasValue self.now cell result }
        ensures fits { FitsCell result }
    {
        self.store.value(cell)
    }

    /// The row of cells, which holds the families and their values.
    pub fn store(&self) -> &Store<V>
        ensures { AreKept self.now.signs result.now (trie_in self.now) }
    {
        &self.store
    }

    /// Whether the sign joins the family below the parent's string in place.
    pub fn is_joining(&self, parent: usize, s: Sign) -> bool
        requires { CanTakeSign self.now.signs self.now.families parent s }
        ensures { (q : List ℕ) → cell_of self.now.families q ≡ Some parent
            → result ≡ joins_at self.now.families q s }
    {
        let base = self.store.child(parent);
        joins(&self.store, base, s)
    }

    /// Adds the sign to the family below the parent's string, with the value, and gives its cell,
    /// as [`Cells::add`](crate::Cells::add) does. The members are the family's signs,
    /// where the sign does not join it in place.
    pub fn add(
        &mut self,
        parent: usize,
        s: Sign,
        v: Member<V>,
        members: &[Sign],
    ) -> Result<usize, AllocError>
        requires can { CanTakeSign self.old.signs self.old.families parent s }
        requires fits { FitsCell v }
        requires positive { ArePositive members.now }
        requires members { (q : List ℕ) → cell_of self.old.families q ≡ Some parent →
            joins_at self.old.families q s ≡ false
            → ArePassing (has_sign self.old.families q) members.now }
        ensures { AddsSign self.old self.new parent s v result }
    {
        let slot = Slot {
            value: v,
            child: 0,
            sign: s,
        };
        let moving = &mut self.moving;
        add_slot(&mut self.store, moving, slot, parent, members, self.signs)
    }

    /// Takes the sign away from the family below the parent's string. `is_alone` says that the
    /// family has no other sign. A family without a sign is gone. Every other string keeps its
    /// cell.
    pub fn remove(&mut self, parent: usize, s: Sign, is_alone: bool)
        requires can { CanRemoveSign self.old.families parent s }
        requires alone { (q : List ℕ) → cell_of self.old.families q ≡ Some parent →
            MatchBool is_alone (IsAlone self.old.families q s) (HasOther self.old.families q s) }
        ensures { RemovesSign self.old self.new parent s }
    {
        let base = self.store.child(parent);
        self.store.free(base + s as usize);
        drop_family(&mut self.store, base, parent, is_alone);
    }

    /// Gives the cell's string the value.
    pub fn set_value(&mut self, cell: usize, v: Member<V>)
        requires taken { IsTaken self.old.families cell }
        requires fits { FitsCell v }
        ensures { SetsValue self.old self.new cell v }
    {
        self.store.set_value(cell, v);
    }

    /// The root family alone, each value `blank`.
    pub fn reset(&mut self, blank: Member<V>)
        requires { FitsCell blank }
        ensures { IsRootAlone self.old.signs blank self.new }
    {
        self.store.clear(self.signs as usize + 1);
        take_root(&mut self.store, self.signs, blank);
        self.store.set_base(0, true);
    }
}
