//! A window of signs, by which a walk over the windows that are counted knows where it is.

use crate::limits::{LENGTH_MAX, Sign};
use std::cmp::Ordering;
use std::marker::Model;

/// The room for a window's signs.
const ROOM: usize = LENGTH_MAX as usize;

/// A window, of at most [`LENGTH_MAX`](crate::LENGTH_MAX) signs, compared in the order of signs. A
/// walk over windows keeps the last one that it came to.
#[derive(Drop)]
pub struct Cursor {
    signs: [Sign; ROOM],
    len: u8,
}

impl Model for Cursor {
    ghost use Rattle.std.specs.Prelude.{◌≡◌, ℕ, ◌≤◌, List, take, true};
    ghost use Rattle.std.specs.List.{list_all};
    ghost use Rattle.pg_types.specs.declared.limits.TheConstants.{LENGTH_MAX};
    ghost use Rattle.pg_types.specs.Inside.Signs.{is_sign};

    ghost Value = { List ℕ };

    ghost view = { λ w. take w.len w.signs };

    ghost invariant = { λ w. (w.len ≤ LENGTH_MAX)
        × (list_all is_sign (take w.len w.signs) ≡ true) };
}

impl Cursor {
    ghost use Rattle.std.specs.Prelude.{◌≡◌, ◌≤◌, [], true, length};
    ghost use Rattle.std.specs.List.{list_all};
    ghost use Rattle.pg_types.specs.declared.limits.TheConstants.{LENGTH_MAX};
    ghost use Rattle.pg_types.specs.Inside.Signs.{is_sign};

    /// The empty window, which is less than every other.
    pub fn start() -> Cursor
        ensures { result ≡ [] }
    {
        Cursor {
            signs: [0; ROOM],
            len: 0,
        }
    }

    /// The window's signs.
    pub fn signs(&self) -> &[Sign]
        ensures value { result.now ≡ self.now }
        ensures len { length result.now ≤ LENGTH_MAX }
        ensures signs { list_all is_sign result.now ≡ true }
    {
        &self.signs[..usize::from(self.len)]
    }

    /// Replaces the window by `signs`.
    pub fn set(&mut self, signs: &[Sign])
        requires len { length signs.now ≤ LENGTH_MAX }
        requires signs { list_all is_sign signs.now ≡ true }
        ensures { self.new ≡ signs.now }
    {
        self.signs[..signs.len()].copy_from_slice(signs);
        self.len = signs.len() as u8;
    }
}

impl PartialEq for Cursor {
    ghost use Rattle.std.specs.Prelude.{nat_eq};
    ghost use Rattle.std.specs.Cmp.{partial_equiv_from_equiv};
    ghost use Rattle.std.specs.Cmp.Lexicographic.{pointwise, nat_list_eq_equiv};

    ghost eq = { pointwise nat_eq };

    ghost laws = { partial_equiv_from_equiv nat_list_eq_equiv };

    fn eq(&self, other: &Self) -> bool {
        self.signs() == other.signs()
    }
}

impl Eq for Cursor {
    ghost use Rattle.std.specs.Cmp.Lexicographic.{nat_list_eq_equiv};

    ghost laws = { nat_list_eq_equiv };
}

impl PartialOrd for Cursor {
    ghost use Rattle.std.specs.Prelude.{Some};
    ghost use Rattle.std.specs.Ordering.{nat_cmp};
    ghost use Rattle.std.specs.Cmp.Lexicographic.{slice_cmp, texts_po};

    ghost partial_cmp = { λ s t. Some (slice_cmp nat_cmp s t) };

    ghost laws = { texts_po };

    fn partial_cmp(&self, other: &Self) -> Option<Ordering> {
        Some(self.cmp(other))
    }
}

impl Ord for Cursor {
    ghost use Rattle.std.specs.Prelude.{refl};
    ghost use Rattle.std.specs.Ordering.{nat_cmp};
    ghost use Rattle.std.specs.Cmp.Lexicographic.{slice_cmp, nat_list_cmp_total, texts_ties};

    ghost cmp = { slice_cmp nat_cmp };

    ghost total = { nat_list_cmp_total };

    ghost matches_partial_cmp = { λ s t. refl };

    ghost matches_eq = { texts_ties };

    fn cmp(&self, other: &Self) -> Ordering {
        self.signs().cmp(other.signs())
    }
}
