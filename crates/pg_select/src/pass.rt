//! A pass of a level.
ghost use Rattle.std.specs.Prelude.{◌≡◌, ◌≤◌, ◌+◌};
ghost use Rattle.pg_types.specs.declared.limits.TheConstants.{WORD_LETTERS_MAX};
ghost use Rattle.pg_select.specs.Inside.words.WindowStrings.{is_within};

/// A pass: its level, and the length and the dot of its windows.
#[derive(Clone, Copy, Debug)]
pub struct Pass {
    /// The level, 1 to [`LEVEL_MAX`](pg_types::LEVEL_MAX).
    pub level: u8,
    /// How many signs a window has, 1 to [`LENGTH_MAX`](pg_types::LENGTH_MAX).
    pub len: u8,
    /// How many of them stand before the dot, 0 to `len`.
    pub dot: u8,
}

impl Pass {
    /// Whether a string of `len` signs lies inside a window of the pass if its own dot, `dot`, is
    /// laid on the dot of the window.
    pub fn has_within(&self, len: usize, dot: u8) -> bool
        requires { len ≤ WORD_LETTERS_MAX + 2 }
        ensures { result ≡ is_within self.now.len self.now.dot len dot }
    {
        dot <= self.dot && len + usize::from(self.dot) <= usize::from(self.len) + usize::from(dot)
    }
}
