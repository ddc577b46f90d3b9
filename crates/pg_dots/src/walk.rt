//! A walk over the clear bits of a row.
ghost use Rattle.std.specs.Prelude.{◌≡◌, ◌≤◌, ◌<◌, ◌*◌, ◌+◌, ◌^◌, ℕ, length};
ghost use Rattle.pg_types.specs.Inside.Bits.{has_bit};
ghost use Rattle.pg_dots.specs.Inside.Walks.{IsAhead, IsFirstFailing};

use pg_types::bits::{NUMBER_BITS, lowest_set};

/// How far a walk over the clear bits of a row has come: the number where it is, and which clear
/// bits of that number are ahead. It has this number in hand, so what it has passed may be closed
/// while it goes on. It passes over each number that has no clear bit.
#[derive(Clone, Copy)]
pub struct Walk {
    /// The index of the number.
    at: usize,
    /// The clear bits that are ahead, as bits that are set.
    ahead: u64,
}

impl Walk {
    /// Before the first bit of a row.
    pub(crate) fn start(row: &[u64]) -> Walk
        requires some { 0 < length row.now }
        ensures within { result.at < length row.now }
        ensures ahead { IsAhead (has_bit row.now) result 0 }
    {
        Walk {
            at: 0,
            ahead: !row[0],
        }
    }

    /// The walk on the first number from its own on in which a clear bit is ahead; on the last
    /// number of the row where there is none.
    fn on_open_number(self, row: &[u64]) -> Walk
        requires within { self.at < length row.now }
        ensures within { result.at < length row.now }
        ensures ahead { (from : ℕ) → IsAhead (has_bit row.now) self from
            → IsAhead (has_bit row.now) result from }
        ensures last { result.ahead ≡ 0 → result.at + 1 ≡ length row.now }
    {
        if self.ahead != 0 {
            return self;
        }
        let mut walk = self;
        'numbers: for at in self.at + 1..row.len() {
            walk = Walk {
                at,
                ahead: !row[at],
            };
            if walk.ahead != 0 {
                return walk;
            }
        }
        walk
    }

    /// The index of the next clear bit of the row; the end of the row where there is none.
    pub(crate) fn next(&mut self, row: &[u64]) -> usize
        requires within { self.old.at < length row.now }
        requires few { 64 * length row.now < 2 ^ 64 }
        ensures within { self.new.at < length row.now }
        ensures next { (from : ℕ) → IsAhead (has_bit row.now) self.old from
            → IsFirstFailing (has_bit row.now) (64 * length row.now) from result }
        ensures ahead { (from : ℕ) → IsAhead (has_bit row.now) self.old from
            → result < 64 * length row.now → IsAhead (has_bit row.now) self.new (result + 1) }
    {
        let walk = self.on_open_number(row);
        if walk.ahead == 0 {
            return row.len() * NUMBER_BITS;
        }
        let bit = lowest_set(walk.ahead);
        *self = Walk {
            at: walk.at,
            ahead: walk.ahead & !(1 << bit),
        };
        walk.at * NUMBER_BITS + bit
    }
}
