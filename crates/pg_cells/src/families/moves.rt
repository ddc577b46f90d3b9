//! A family gives up its cells and is put at another base.
ghost use Rattle.std.specs.Prelude.{◌≡◌, ◌≢◌, ℕ, ◌+◌, ◌<◌, ◌≤◌, length, nat_eq, Some, [], OnOk};
ghost use Rattle.pg_cells.specs.declared.store.fit.Slot.{Slot as SlotOf};
ghost use Rattle.pg_cells.specs.declared.store.member.Member.{Member as MemberOf};
ghost use Rattle.pg_cells.specs.declared.store.cell.TheConstants.{CELLS_END, SIGN_COUNT};
ghost use Rattle.pg_cells.specs.Inside.store.CellRows.{sign_at, IsFree};
ghost use Rattle.pg_cells.specs.Inside.store.Fit.{slot_of};
ghost use Rattle.pg_cells.specs.Inside.linked.Members.{ArePassing, ArePositive};
ghost use Rattle.pg_cells.specs.Inside.families.Moves.{AllFit, AreDistinct, GivesUp, PutsSlots, AreSlotsOf, Collects};

use crate::store::Store;
use crate::store::fit::Slot;
use crate::store::member::Member;
use pg_types::Sign;
use std::alloc::AllocError;

/// Gives up the cells that the slots have at a base.
pub fn give_up<V: Copy>(store: &mut Store<V>, base: usize, slots: &[Slot<Member<V>>])
    requires distinct { AreDistinct slots.now }
    requires base { base < CELLS_END }
    requires taken { (x : ℕ) (slot : SlotOf (MemberOf V)) → slot_of slots.now x ≡ Some slot →
        (0 < x) × (sign_at store.old (base + x) ≢ 0) }
    ensures { GivesUp store.old store.new base slots.now }
{
    for held in slots {
        store.free(base + held.sign as usize);
    }
}

/// Puts the slots into their cells at a base.
pub fn put<V: Copy>(store: &mut Store<V>, base: usize, slots: &[Slot<Member<V>>])
    requires distinct { AreDistinct slots.now }
    requires base { base < CELLS_END }
    requires free { (x : ℕ) (slot : SlotOf (MemberOf V)) → slot_of slots.now x ≡ Some slot →
        (0 < x) × (IsFree store.old (base + x)) × (slot.child < length store.old.signs) }
    requires sign_fits { (x : ℕ) (slot : SlotOf (MemberOf V)) → slot_of slots.now x ≡ Some slot →
        x < SIGN_COUNT }
    requires fits { AllFit slots.now }
    ensures { PutsSlots store.old store.new base slots.now }
{
    for slot in slots {
        store.take(base + slot.sign as usize, *slot);
    }
}

/// Collects what the cells of the family at a base hold, by rising sign, where the members are its
/// signs.
pub fn collect<V: Copy>(
    store: &Store<V>,
    base: usize,
    members: &[Sign],
    slots: &mut Vec<Slot<Member<V>>>,
) -> Result<(), AllocError>
    requires base { base < CELLS_END }
    requires members { ArePositive members.now }
    ensures none { members.now ≡ [] → OnOk result (slots.new.items ≡ []) }
    ensures some { (n : ℕ) → ((i : ℕ) → sign_at store.now i ≤ n) →
        ArePassing (λ x. nat_eq (sign_at store.now (base + x)) x) members.now →
        OnOk result (AreSlotsOf n store.now base slots.new.items) }
    ensures fits { OnOk result (AllFit slots.new.items) }
{
    slots.clear();
    for sign in members {
        collect_sign(store, base, *sign, slots)?;
    }
    Ok(())
}

// Adds the slot of a sign, where the sign stands at the base.
fn collect_sign<V: Copy>(
    store: &Store<V>,
    base: usize,
    sign: Sign,
    slots: &mut Vec<Slot<Member<V>>>,
) -> Result<(), AllocError>
    requires base { base < CELLS_END }
    requires sign { 0 < sign }
    ensures collects { OnOk result
        (Collects store.now base sign slots.old.items slots.new.items) }
    ensures fits { AllFit slots.old.items → OnOk result (AllFit slots.new.items) }
{
    let cell = base + sign as usize;
    if !store.has_sign(cell, sign) {
        return Ok(());
    }
    let child = store.child(cell);
    let value = store.value(cell);
    slots.push(Slot { value, child, sign })?;
    Ok(())
}
