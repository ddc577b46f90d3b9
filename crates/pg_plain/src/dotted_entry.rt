//! What an entry of a map of dotted strings gives at its dot.
ghost use Rattle.std.specs.Prelude.{◌≡◌, ℕ, Bool};

/// What a map has at a dotted string: in a word an entry gives a value to the position of its dot,
/// and it may cover the window there.
pub trait DottedEntry {
    ghost given: { Self → ℕ };

    ghost covers_at: { ℕ → Self → Bool };

    /// The value that it gives, 0 where it gives none.
    fn value(&self) -> u8
        ensures { result ≡ given self.now };

    /// Whether it covers a window, in which it stands, at `level`.
    fn covers(&self, level: u8) -> bool
        ensures { result ≡ covers_at level self.now };
}

/// The value of a pattern covers at its level and at those below.
impl DottedEntry for u8 {
    ghost use Rattle.std.specs.Prelude.{nat_le};

    ghost given = { λ value. value };

    ghost covers_at = { λ level value. nat_le level value };

    fn value(&self) -> u8 {
        *self
    }

    fn covers(&self, level: u8) -> bool {
        level <= *self
    }
}

/// A hopeless dotted string gives no value, and covers.
impl DottedEntry for () {
    ghost use Rattle.std.specs.Prelude.{true};

    ghost given = { λ _. 0 };

    ghost covers_at = { λ _ _. true };

    fn value(&self) -> u8 {
        0
    }

    fn covers(&self, _level: u8) -> bool {
        true
    }
}
