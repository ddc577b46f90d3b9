//! Which passes of a level can have no candidate.
use pg_types::LENGTH_MAX;
use std::marker::Model;

/// The room for the dots of the greatest length, and for the dot behind them.
const ROOM: usize = LENGTH_MAX as usize + 2;

/// The passes of a length, and of the next, that can be skipped, since a pass of the same level
/// that is shorter by a sign left no candidate. Each has a flag by its dot.
#[derive(Drop)]
pub struct Skippable {
    here: [bool; ROOM],
    longer: [bool; ROOM],
}

impl Model for Skippable {
    ghost use Rattle.pg_driver.specs.Inside.level.Levels.{SkipFlags};

    ghost Value = { SkipFlags };

    ghost view = { λ c. record { here = c.here; longer = c.longer } };
}

impl Skippable {
    ghost use Rattle.std.specs.Prelude.{◌≡◌, ◌≤◌, ◌+◌, ◌==◌, ◌&&◌, ◌||◌, ℕ, false};
    ghost use Rattle.pg_types.specs.declared.limits.TheConstants.{LENGTH_MAX};
    ghost use Rattle.pg_driver.specs.Inside.level.Levels.{is_set, no_flags};

    /// No flag is set, as where a level begins.
    pub fn new() -> Skippable
        ensures here { result.here ≡ no_flags }
        ensures longer { result.longer ≡ no_flags }
    {
        Skippable {
            here: [false; ROOM],
            longer: [false; ROOM],
        }
    }

    /// Whether the pass of the present length with this dot can be skipped.
    pub fn is_skippable(&self, dot: u8) -> bool
        requires { dot ≤ LENGTH_MAX }
        ensures { result ≡ is_set self.now.here dot }
    {
        self.here[usize::from(dot)]
    }

    /// Notes whether the pass of the present length with this dot left no candidate. Where it left
    /// none, the passes that are longer by a sign, with the same dot and the next, can be skipped.
    pub fn set(&mut self, dot: u8, left_none: bool)
        requires { dot ≤ LENGTH_MAX }
        ensures here { self.new.here ≡ self.old.here }
        ensures longer { (d : ℕ) → is_set self.new.longer d
            ≡ (left_none && (dot == d || dot + 1 == d) || is_set self.old.longer d) }
    {
        let dot = usize::from(dot);
        self.longer[dot] |= left_none;
        self.longer[dot + 1] |= left_none;
    }

    /// Goes on to the next length.
    pub fn next_length(&mut self)
        ensures here { self.new.here ≡ self.old.longer }
        ensures longer { self.new.longer ≡ no_flags }
    {
        let longer = self.longer;
        self.here = longer;
        self.longer = [false; ROOM];
    }
}
