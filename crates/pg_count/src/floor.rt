//! A string above which others are sought, read sign by sign.
ghost use Rattle.std.specs.Prelude.{◌≡◌};
ghost use Rattle.pg_count.specs.Inside.Floors.{first_sign, rest_after, is_past};

use pg_types::{EDGE, Sign};

/// The least sign with which a string above the floor may begin.
pub fn first_of(floor: &[Sign]) -> Sign
    ensures { result ≡ first_sign floor.now }
{
    match floor.first() {
        Some(first) => EDGE.max(*first),
        None => EDGE,
    }
}

/// The floor for what follows the sign: the rest of the floor if it begins with the sign, else an
/// empty one.
pub fn rest_of(floor: &[Sign], s: Sign) -> &[Sign]
    ensures { result.now ≡ rest_after floor.now s }
{
    match floor.split_first() {
        Some((first, rest)) if *first == s => rest,
        _ => &[],
    }
}

/// Whether the sign alone is above the floor.
pub fn passes(floor: &[Sign], s: Sign) -> bool
    ensures { result ≡ is_past floor.now s }
{
    match floor.first() {
        Some(first) => *first < s,
        None => true,
    }
}
