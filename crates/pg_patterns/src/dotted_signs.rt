//! Dotted strings: the signs of a pattern, and a dot among them.
ghost use Rattle.std.specs.Prelude.{◌≡◌, ◌≤◌, length};

use pg_types::{PATTERN_SIGNS_MAX, Sign};
use std::cmp::Ordering;
use std::marker::Model;

/// Up to [`PATTERN_SIGNS_MAX`] signs and a dot, the number of signs before it. Dotted strings are
/// ordered by their signs, a string before its extensions, and then by their dots. They are the
/// keys of the plain engine's maps too, which so have the order of a
/// [`PatternSet`](crate::PatternSet).
#[derive(Drop)]
pub struct DottedSigns {
    signs: [Sign; PATTERN_SIGNS_MAX],
    len: u8,
    dot: u8,
}

impl Model for DottedSigns {
    ghost use Rattle.std.specs.Prelude.{ℕ, ◌≤◌, List, take};
    ghost use Rattle.pg_types.specs.declared.limits.TheConstants.{PATTERN_SIGNS_MAX};

    ghost Value = { List ℕ × ℕ };

    ghost view = { λ p. (take p.len p.signs, p.dot) };

    ghost invariant = { λ p. p.len ≤ PATTERN_SIGNS_MAX };
}

impl DottedSigns {
    /// The dotted string of `dot` among `signs`.
    pub fn new(signs: &[Sign], dot: u8) -> DottedSigns
        requires { length signs.now ≤ PATTERN_SIGNS_MAX }
        ensures { result ≡ (signs.now, dot) }
    {
        let mut held = [0; PATTERN_SIGNS_MAX];
        held[..signs.len()].copy_from_slice(signs);
        DottedSigns {
            signs: held,
            len: signs.len() as u8,
            dot,
        }
    }

    /// The signs.
    pub fn signs(&self) -> &[Sign]
        ensures value { result.now ≡ self.now.0 }
        ensures few { length result.now ≤ PATTERN_SIGNS_MAX }
    {
        &self.signs[..usize::from(self.len)]
    }

    /// How many signs stand before the dot.
    pub fn dot(&self) -> u8
        ensures { result ≡ self.now.1 }
    {
        self.dot
    }
}

impl PartialEq for DottedSigns {
    ghost use Rattle.pg_patterns.specs.Inside.DottedOrder.{same_dotted, dotted_partial_equiv};

    ghost eq = { same_dotted };

    ghost laws = { dotted_partial_equiv };

    fn eq(&self, other: &Self) -> bool {
        self.dot() == other.dot() && self.signs() == other.signs()
    }
}

impl Eq for DottedSigns {
    ghost use Rattle.pg_patterns.specs.Inside.DottedOrder.{dotted_equiv};

    ghost laws = { dotted_equiv };
}

impl PartialOrd for DottedSigns {
    ghost use Rattle.std.specs.Prelude.{Some};
    ghost use Rattle.pg_patterns.specs.DottedSigns.{dotted_cmp};
    ghost use Rattle.pg_patterns.specs.Inside.DottedOrder.{dotted_partial_order};

    ghost partial_cmp = { λ a b. Some (dotted_cmp a b) };

    ghost laws = { dotted_partial_order };

    fn partial_cmp(&self, other: &Self) -> Option<Ordering> {
        Some(self.cmp(other))
    }
}

impl Ord for DottedSigns {
    ghost use Rattle.std.specs.Prelude.{refl};
    ghost use Rattle.pg_patterns.specs.DottedSigns.{dotted_cmp};
    ghost use Rattle.pg_patterns.specs.Inside.DottedOrder.{dotted_total, dotted_ties};

    ghost cmp = { dotted_cmp };

    ghost total = { dotted_total };

    ghost matches_partial_cmp = { λ a b. refl };

    ghost matches_eq = { dotted_ties };

    fn cmp(&self, other: &Self) -> Ordering {
        self.signs()
            .cmp(other.signs())
            .then(self.dot().cmp(&other.dot()))
    }
}
