//! Draws: a linear congruential generator modulo 2^31, of which the higher bits are used.
use std::marker::Model;

/// Numbers, each drawn from the one before.
#[derive(Drop)]
pub struct Draws {
    state: u32,
}

impl Model for Draws {
    ghost use Rattle.std.specs.Prelude.{ℕ};

    ghost Value = { ℕ };

    ghost view = { λ a. a.state };
}

impl Draws {
    ghost use Rattle.std.specs.Prelude.{◌≡◌, ◌<◌};
    ghost use Rattle.pg_draws.specs.DrawnNumbers.{drawn};

    /// The draws from a seed.
    pub fn new(seed: u32) -> Draws
        ensures { result ≡ seed }
    {
        Draws { state: seed }
    }

    /// Draws the next number, below `most`.
    pub fn next_below(&mut self, most: usize) -> usize
        requires { 0 < most }
        ensures state { self.new ≡ (drawn most self.old).1 }
        ensures drawn { result ≡ (drawn most self.old).0 }
        ensures below { result < most }
    {
        self.state = ((1_103_515_245 * u64::from(self.state) + 12_345) % (1 << 31)) as u32;
        self.state as usize / 65_536 % most
    }
}
