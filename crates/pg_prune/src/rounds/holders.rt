//! How many entries give each value to a position.
use pg_types::LEVEL_MAX;
use std::marker::Model;

/// How many values a pattern can have.
const VALUES: usize = LEVEL_MAX as usize;

/// How many entries give each value to a position.
#[derive(Drop)]
pub(crate) struct Holders {
    counts: [u64; VALUES],
}

impl Model for Holders {
    ghost use Rattle.std.specs.Prelude.{ℕ, List};

    ghost Value = { List ℕ };

    ghost view = { λ h. h.counts };
}

impl Holders {
    ghost use Rattle.std.specs.Prelude.{◌≡◌, ◌+◌, ◌-◌, ◌<◌, ◌≤◌, ◌^◌, slice_index, replicate};
    ghost use Rattle.pg_types.specs.declared.limits.TheConstants.{LEVEL_MAX};
    ghost use Rattle.pg_prune.specs.Inside.rounds.Holders.{greatest_held, with_one, less_one, stays_alike};

    /// No entry.
    pub fn none() -> Holders
        ensures { result ≡ replicate LEVEL_MAX 0 }
    {
        Holders {
            counts: [0; VALUES],
        }
    }

    /// Adds an entry with this value.
    pub fn add(&mut self, value: u8)
        requires value { (1 ≤ value) × (value ≤ LEVEL_MAX) }
        requires room { slice_index self.old (value - 1) < 2 ^ 64 - 1 }
        ensures { self.new ≡ with_one self.old value }
    {
        self.counts[usize::from(value) - 1] += 1;
    }

    /// Takes off an entry with this value.
    pub fn take_off(&mut self, value: u8)
        requires value { (1 ≤ value) × (value ≤ LEVEL_MAX) }
        requires some { 0 < slice_index self.old (value - 1) }
        ensures { self.new ≡ less_one self.old value }
    {
        self.counts[usize::from(value) - 1] -= 1;
    }

    /// The greatest value that some entry gives, 0 where there is none.
    fn greatest_held(&self) -> u8
        ensures { result ≡ greatest_held self.now }
    {
        let mut best = 0;
        'counts: for i in 0..VALUES {
            if 0 < self.counts[i] {
                best = i as u8 + 1;
            }
        }
        best
    }

    /// Whether the greatest value stays odd, or even, where an entry with this value is taken off.
    pub fn stays_alike(&self, value: u8) -> bool
        requires value { (1 ≤ value) × (value ≤ LEVEL_MAX) }
        requires some { 0 < slice_index self.now (value - 1) }
        ensures { result ≡ stays_alike value self.now }
    {
        let mut rest = Holders {
            counts: self.counts,
        };
        rest.take_off(value);
        self.greatest_held() % 2 == rest.greatest_held() % 2
    }
}
