//! What the cell of a string holds beside its sign and the base of the family below it.

ghost use Rattle.std.specs.Prelude.{◌≡◌};

use pg_types::Sign;

/// The value of a string, and the links of its family and of the family below it.
#[derive(Clone, Copy)]
pub struct Member<V> {
    pub value: V,
    /// The next sign of the family that the cell is in, 0 for none. The root's signs have no link,
    /// since the root has every sign.
    pub next: Sign,
    /// The first sign of the family below the string, 0 for none.
    pub first: Sign,
}

impl<V: Copy> Member<V> {
    /// The member of a string with no family below it and no next sign.
    pub fn alone(value: V) -> Member<V>
        ensures { result ≡ record { value = value; next = 0; first = 0 } }
    {
        Member {
            value,
            next: 0,
            first: 0,
        }
    }
}
