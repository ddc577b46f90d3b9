//! A sign is added to a family, in its place or at another base.
ghost use Rattle.std.specs.Prelude.{◌≡◌, ℕ, ◌+◌, ◌<◌, ◌≤◌, ◌∷◌, ◌++◌, [], List, Some, nat_lt, nat_eq, ◌&&◌, IfOk, OnOk, OnErr};
ghost use Rattle.pg_types.specs.Inside.PlacementSteps.{with_new_sign};
ghost use Rattle.pg_types.specs.Inside.Signs.{IsTableSign};
ghost use Rattle.pg_types.specs.Inside.Placing.{cell_of};
ghost use Rattle.pg_cells.specs.Inside.linked.Members.{ArePositive};
ghost use Rattle.pg_cells.specs.Inside.linked.ValuedFamilies.{Trie};
ghost use Rattle.pg_cells.specs.declared.store.member.Member.{Member as MemberOf};
ghost use Rattle.pg_cells.specs.declared.store.cell.TheConstants.{CELLS_END};
ghost use Rattle.pg_cells.specs.Inside.store.CellRows.{FitsCell, sign_at};
ghost use Rattle.pg_cells.specs.Inside.store.Store.{Extends, IsRow};
ghost use Rattle.pg_cells.specs.Inside.families.Layouts.{IsTrie};
ghost use Rattle.pg_cells.specs.Inside.families.Adding.{CanAdd, with_sign_below};

use crate::families::moves::collect;
use crate::families::place::place_family;
use crate::store::Store;
use crate::store::fit::Slot;
use crate::store::member::Member;
use pg_types::{SIGNS_MAX, Sign};
use std::alloc::AllocError;

/// Whether a sign may join the family at the base in place.
pub fn joins<V: Copy>(store: &Store<V>, base: usize, s: Sign) -> bool
    requires { base < CELLS_END }
    ensures { result ≡ (nat_lt 0 base && nat_eq (sign_at store.now (base + s)) 0) }
{
    base != 0 && !store.is_taken(base + s as usize)
}

/// Adds the slot's sign to the family below the parent's string, and answers its cell. Where the
/// sign does not join the family in place, `members` are the family's signs. After an error the
/// cells that were there are as before.
pub fn add_slot<V: Copy>(
    store: &mut Store<V>,
    moving: &mut Vec<Slot<Member<V>>>,
    slot: Slot<Member<V>>,
    parent: usize,
    members: &[Sign],
    signs: u16,
) -> Result<usize, AllocError>
    requires can { (t : Trie (MemberOf V)) × (q : List ℕ)
        × (CanAdd signs store.old t q parent slot.sign members.now) }
    requires sign { IsTableSign signs slot.sign }
    requires signs { signs ≤ SIGNS_MAX }
    requires child { slot.child ≡ 0 }
    requires fits { FitsCell slot.value }
    requires positive { ArePositive members.now }
    ensures trie { (t : Trie (MemberOf V)) (q : List ℕ) →
        CanAdd signs store.old t q parent slot.sign members.now →
        OnOk result (IsTrie signs store.new (with_sign_below signs t q slot.sign slot.value)) }
    ensures cell { (t : Trie (MemberOf V)) (q : List ℕ) →
        CanAdd signs store.old t q parent slot.sign members.now →
        IfOk result (λ cell. cell_of (with_new_sign signs t.families q slot.sign)
        (q ++ slot.sign ∷ []) ≡ Some cell) }
    ensures err { OnErr result (Extends store.old store.new) }
    ensures row { IsRow store.new }
{
    let member = slot.value;
    store.make_room(signs as usize + 2, member.value)?;
    let base = store.child(parent);
    if joins(store, base, slot.sign) {
        let cell = base + slot.sign as usize;
        store.take(cell, slot);
        return Ok(cell);
    }
    collect(store, base, members, moving)?;
    let slots = moving.as_slice();
    let placed = place_family(store, slots, slot, parent, base, signs);
    Ok(placed + slot.sign as usize)
}
