//! A family is put at the least base that fits.
ghost use Rattle.std.specs.Prelude.{◌≡◌, ℕ, ◌+◌, ◌<◌, ◌≤◌, max, false, ◌∷◌, length};
ghost use Rattle.pg_types.specs.Inside.PlacementSteps.{lowest_base};
ghost use Rattle.pg_types.specs.Inside.Placing.{IsLeast};
ghost use Rattle.pg_cells.specs.declared.store.cell.TheConstants.{CELLS_END};
ghost use Rattle.pg_cells.specs.Inside.store.Fit.{HasSpace, fits_row, slot_signs};
ghost use Rattle.pg_cells.specs.Inside.store.CellRows.{FitsCell};
ghost use Rattle.pg_cells.specs.Inside.families.Moves.{AllFit, DropsBase, MovesFamily, CanPlace};
ghost use Rattle.pg_cells.specs.Inside.store.Store.{IsRow};

use crate::families::moves::{give_up, put};
use crate::store::Store;
use crate::store::fit::Slot;
use crate::store::member::Member;
use pg_types::{FAR_BELOW, FEW_SIGNS, SIGNS_MAX, Sign};

// The lowest base that is tried.
fn lowest_base(signs: u16, count: usize, top: usize) -> usize
    ensures is { result ≡ lowest_base signs count top }
    ensures positive { 0 < result }
    ensures within { result ≤ max 1 top }
{
    if count <= FEW_SIGNS {
        1
    } else {
        top.saturating_sub(FAR_BELOW.max(signs as usize)).max(1)
    }
}

// Drops the base of a family; where the base is 0, there is no family.
fn drop_base<V: Copy>(store: &mut Store<V>, base: usize)
    requires { base < length store.old.signs }
    ensures { DropsBase store.old store.new base }
{
    if base != 0 {
        store.set_base(base, false);
    }
}

// No base from `low` on and below the answer is free for a family that moves. The search that found
// its old base `was` tried them; it began at `sought`.
fn tried_up_to(was: usize, sought: usize, low: usize) -> usize
    requires { was < CELLS_END }
    ensures { low < result → (0 < was) × (sought ≤ low) × (result ≡ was + 1) }
{
    if 0 < was && sought <= low { was + 1 } else { 0 }
}

// The greatest bound of the sign and those of the slots. Below it they may stand at no base.
fn greatest_bound<V: Copy>(store: &Store<V>, slots: &[Slot<Member<V>>], sign: Sign) -> usize
    ensures { (b : ℕ) → 0 < b → b < result →
        fits_row store.now (sign ∷ slot_signs slots.now) b ≡ false }
{
    let mut bound = store.bound(sign);
    for slot in slots {
        bound = bound.max(store.bound(slot.sign));
    }
    bound
}

// The least base from `low` on at which the sign and those of the slots may stand; at `room` they
// may. It is sought from the greatest of `low`, `tried` and the bounds of the signs on: below
// `tried` no base fits. A search for one sign from its bound on raises the bound.
fn least_base<V: Copy>(
    store: &mut Store<V>,
    slots: &[Slot<Member<V>>],
    sign: Sign,
    low: usize,
    room: usize,
    tried: usize,
) -> usize
    requires low { (0 < low) × (low ≤ room) }
    requires tried { (k : ℕ) → low ≤ k → k < tried →
        fits_row store.old (sign ∷ slot_signs slots.now) k ≡ false }
    requires room { HasSpace store.old slots.now sign room }
    ensures least { IsLeast (fits_row store.old (sign ∷ slot_signs slots.now)) low result }
    ensures room { result ≤ room }
    ensures same { store.new ≡ store.old }
{
    let bound = greatest_bound(store, slots, sign);
    let known = tried.max(bound);
    let from = low.max(known);
    let base = store.find_base(slots, sign, from, room);
    if slots.is_empty() && low <= bound.max(1) {
        store.raise_bound(sign, base);
    }
    base
}

/// Gives up the cells of a family, puts it below its parent with one sign more, and answers its
/// base. The slots are those of the family.
pub fn place_family<V: Copy>(
    store: &mut Store<V>,
    slots: &[Slot<Member<V>>],
    slot: Slot<Member<V>>,
    parent: usize,
    was: usize,
    signs: u16,
) -> usize
    requires can { CanPlace signs store.old was slots.now slot parent }
    requires row { IsRow store.old }
    requires was { was < length store.old.signs }
    requires signs { signs ≤ SIGNS_MAX }
    requires fits { FitsCell slot.value }
    requires all_fit { AllFit slots.now }
    ensures moved { MovesFamily signs store.old store.new was result slots.now slot parent }
    ensures row { IsRow store.new }
{
    let sought = store.sought_from(was);
    give_up(store, was, slots);
    drop_base(store, was);
    let top = store.top();
    let low = lowest_base(signs, slots.len() + 1, top);
    let tried = tried_up_to(was, sought, low);
    let base = least_base(store, slots, slot.sign, low, top.max(1), tried);
    put(store, base, slots);
    store.take(base + slot.sign as usize, slot);
    store.set_base(base, true);
    store.set_sought(base, low);
    store.set_child(parent, base);
    base
}
