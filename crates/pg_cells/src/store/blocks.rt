//! The search for a base, 64 bases at a time.
ghost use Rattle.std.specs.Prelude.{◌≡◌, ◌<◌, ◌≤◌, ◌+◌, ◌^◌, ◌==◌, ℕ, ◌∷◌, true};
ghost use Rattle.std.specs.Int.{bit_at};
ghost use Rattle.pg_types.specs.Inside.Placing.{IsLeast};
ghost use Rattle.pg_cells.specs.declared.store.cell.TheConstants.{CELLS_END};
ghost use Rattle.pg_cells.specs.Inside.store.Fit.{slot_signs};
ghost use Rattle.pg_cells.specs.Inside.store.SetFit.{fits_sets};

use crate::store::bit_set::BitSet;
use crate::store::fit::Slot;
use crate::store::member::Member;
use crate::store::taken_set::TakenSet;
use pg_types::Sign;

// For each of 64 bases from `base` on a bit: whether the sign or one of the slots may not stand
// there. It stops early where all bits are set. The bases come last, since more often a cell is
// taken.
fn blocked_from<V: Copy>(
    taken: &TakenSet,
    bases: &BitSet,
    slots: &[Slot<Member<V>>],
    sign: Sign,
    base: usize,
) -> u64
    requires { base < CELLS_END }
    ensures small { result < 2 ^ 64 }
    ensures fits { (j : ℕ) → j < 64 → (bit_at result j == 0)
        ≡ fits_sets taken.now.cells bases.now (sign ∷ slot_signs slots.now) (base + j) }
{
    let mut blocked = taken.from(base + sign as usize);
    for slot in slots {
        if blocked == u64::MAX {
            return blocked;
        }
        blocked |= taken.from(base + slot.sign as usize);
    }
    blocked | bases.from(base)
}

/// The least base from `low` on at which the sign and those of the slots may stand, by the sets of
/// the taken cells and of the bases. `room` is a base at which they may stand. The search goes
/// along the cells of the sign, and passes over those that are full.
pub fn find_in_blocks<V: Copy>(
    taken: &TakenSet,
    bases: &BitSet,
    slots: &[Slot<Member<V>>],
    sign: Sign,
    low: usize,
    room: usize,
) -> usize
    requires low { low ≤ room }
    requires small { room < CELLS_END }
    requires room { fits_sets taken.now.cells bases.now (sign ∷ slot_signs slots.now) room ≡ true }
    ensures least { IsLeast
        (fits_sets taken.now.cells bases.now (sign ∷ slot_signs slots.now)) low result }
    ensures room { result ≤ room }
{
    let far = sign as usize;
    let mut base = low;
    let mut blocked = blocked_from(taken, bases, slots, sign, base);
    while blocked == u64::MAX {
        base = taken.behind(base + far, room + far) - far;
        blocked = blocked_from(taken, bases, slots, sign, base);
    }
    base + blocked.trailing_ones() as usize
}
