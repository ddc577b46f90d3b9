//! A family without a sign is gone.
ghost use Rattle.std.specs.Prelude.{◌≡◌, ◌≢◌, ℕ, ◌<◌, [], length, MatchBool};
ghost use Rattle.pg_cells.specs.Inside.store.CellRows.{sign_at};
ghost use Rattle.pg_cells.specs.Inside.families.Layouts.{signs_at_base};
ghost use Rattle.pg_cells.specs.Inside.families.Moves.{DropsEmptyFamily};
ghost use Rattle.pg_cells.specs.Inside.store.Store.{IsRow};

use crate::store::Store;

/// Takes the family at a base away from its parent, where no sign stands at the base any more.
pub fn drop_family<V: Copy>(store: &mut Store<V>, base: usize, parent: usize, is_empty: bool)
    requires row { IsRow store.old }
    requires base { base < length store.old.signs }
    requires parent { sign_at store.old parent ≢ 0 }
    ensures prunes { (n : ℕ) → MatchBool is_empty (signs_at_base n store.old base ≡ [])
        (signs_at_base n store.old base ≢ []) →
        DropsEmptyFamily n store.old store.new base parent }
    ensures row { IsRow store.new }
{
    if is_empty {
        store.set_child(parent, 0);
        store.set_base(base, false);
    }
}
