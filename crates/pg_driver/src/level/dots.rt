//! The order of the dots of a length.
ghost use Rattle.std.specs.Prelude.{◌≡◌, ◌≤◌};
ghost use Rattle.pg_types.specs.declared.limits.TheConstants.{LENGTH_MAX};
ghost use Rattle.pg_driver.specs.Dots.{dot_at as dot_of_rule};

/// The dot of the pass with index `k`, from 0, among those of a length. The dots go from the middle
/// outwards: first to the left where the length is even, and first to the right where it is odd
/// (the organ-pipe order of patgen 2.4).
pub fn dot_at(len: u8, k: u8) -> u8
    requires len { len ≤ LENGTH_MAX }
    requires within_length { k ≤ len }
    ensures dot { result ≡ dot_of_rule len k }
    ensures within { result ≤ len }
{
    let middle = len / 2;
    let step = (k + 1) / 2;
    if (len + k) % 2 == 0 {
        middle + step
    } else {
        middle - step
    }
}
