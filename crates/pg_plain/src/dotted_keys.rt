//! Dotted strings as the keys of maps.
ghost use Rattle.std.specs.Prelude.{◌≡◌, ◌≤◌, ◌<◌, length, slice_index_or};
ghost use Rattle.pg_types.specs.declared.limits.TheConstants.{PATTERN_SIGNS_MAX};
ghost use Rattle.pg_plain.specs.Inside.Keys.{four_packed};

use pg_patterns::DottedSigns;
use pg_types::Sign;
use std::cmp::Ordering;
use std::marker::Model;

/// How many values fit into the room of a sign: 16 bits.
const SIGN_ROOM: u64 = 65_536;

/// The sign at an index, and 0 behind the last one.
fn sign_at(signs: &[Sign], at: usize) -> u64
    ensures value { result ≡ slice_index_or signs.now at 0 }
    ensures fits { result < SIGN_ROOM }
{
    if at < signs.len() {
        u64::from(signs[at])
    } else {
        0
    }
}

/// The first four signs, as one number. The first sign stands highest, and 0 stands where there is
/// none.
fn packed(signs: &[Sign]) -> u64
    ensures { result ≡ four_packed signs.now }
{
    let one = sign_at(signs, 0);
    let two = one * SIGN_ROOM + sign_at(signs, 1);
    let three = two * SIGN_ROOM + sign_at(signs, 2);
    three * SIGN_ROOM + sign_at(signs, 3)
}

/// A dotted string with its first four signs as one number, so that two of them are mostly told
/// apart by one comparison.
#[derive(Drop)]
pub struct DottedKey {
    head: u64,
    dotted: DottedSigns,
}

impl Model for DottedKey {
    ghost use Rattle.std.specs.Prelude.{ℕ, List};
    ghost use Rattle.pg_plain.specs.Inside.Keys.{HasFirstSigns};

    ghost Value = { List ℕ × ℕ };

    ghost view = { λ k. k.dotted };

    ghost invariant = { λ k. HasFirstSigns k.head k.dotted.0 };
}

impl DottedKey {
    /// The dotted string of `dot` among `signs`.
    pub fn new(signs: &[Sign], dot: u8) -> DottedKey
        requires { length signs.now ≤ PATTERN_SIGNS_MAX }
        ensures { result ≡ (signs.now, dot) }
    {
        DottedKey {
            head: packed(signs),
            dotted: DottedSigns::new(signs, dot),
        }
    }

    /// The signs.
    pub fn signs(&self) -> &[Sign]
        ensures value { result.now ≡ self.now.0 }
        ensures few { length result.now ≤ PATTERN_SIGNS_MAX }
    {
        self.dotted.signs()
    }

    /// How many signs stand before the dot.
    pub fn dot(&self) -> u8
        ensures { result ≡ self.now.1 }
    {
        self.dotted.dot()
    }
}

impl PartialEq for DottedKey {
    ghost use Rattle.pg_patterns.specs.Inside.DottedOrder.{same_dotted, dotted_partial_equiv};

    ghost eq = { same_dotted };

    ghost laws = { dotted_partial_equiv };

    fn eq(&self, other: &Self) -> bool {
        self.dotted == other.dotted
    }
}

impl Eq for DottedKey {
    ghost use Rattle.pg_patterns.specs.Inside.DottedOrder.{dotted_equiv};

    ghost laws = { dotted_equiv };
}

impl PartialOrd for DottedKey {
    ghost use Rattle.std.specs.Prelude.{Some};
    ghost use Rattle.pg_patterns.specs.DottedSigns.{dotted_cmp};
    ghost use Rattle.pg_patterns.specs.Inside.DottedOrder.{dotted_partial_order};

    ghost partial_cmp = { λ a b. Some (dotted_cmp a b) };

    ghost laws = { dotted_partial_order };

    fn partial_cmp(&self, other: &Self) -> Option<Ordering> {
        Some(self.cmp(other))
    }
}

impl Ord for DottedKey {
    ghost use Rattle.std.specs.Prelude.{refl};
    ghost use Rattle.pg_patterns.specs.DottedSigns.{dotted_cmp};
    ghost use Rattle.pg_patterns.specs.Inside.DottedOrder.{dotted_total, dotted_ties};

    ghost cmp = { dotted_cmp };

    ghost total = { dotted_total };

    ghost matches_partial_cmp = { λ a b. refl };

    ghost matches_eq = { dotted_ties };

    fn cmp(&self, other: &Self) -> Ordering {
        if self.head != other.head {
            return self.head.cmp(&other.head);
        }
        self.dotted.cmp(&other.dotted)
    }
}
