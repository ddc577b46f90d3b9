//! The root family, whose signs stand in their own cells.
ghost use Rattle.std.specs.Prelude.{◌≡◌, ◌+◌, ◌<◌, ◌≤◌, length};
ghost use Rattle.pg_cells.specs.Inside.families.Root.{IsRootTo};
ghost use Rattle.pg_cells.specs.Inside.store.CellRows.{FitsCell};

use crate::store::Store;
use crate::store::fit::Slot;
use crate::store::member::Member;
use pg_types::SIGNS_MAX;

/// Takes the cells of the root, each with the value.
pub fn take_root<V: Copy>(store: &mut Store<V>, signs: u16, blank: Member<V>)
    requires empty { IsRootTo 1 blank store.old }
    requires length { signs < length store.old.signs }
    requires signs { signs ≤ SIGNS_MAX }
    requires fits { FitsCell blank }
    ensures root_to { IsRootTo (signs + 1) blank store.new }
    ensures size { length store.new.signs ≡ length store.old.signs }
{
    for sign in 1..signs + 1 {
        store.take(
            sign as usize,
            Slot {
                value: blank,
                child: 0,
                sign,
            },
        );
    }
}
