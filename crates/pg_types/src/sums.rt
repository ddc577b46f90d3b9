//! The sums of the good and the bad weights of a window.
ghost use Rattle.std.specs.Prelude.{◌≡◌};
ghost use Rattle.pg_types.specs.Inside.counting.Counts.{AreSmall, with_weight};

/// The sums with one weight more, in the good or the bad one.
pub fn add_weight(sums: (u64, u64), good: bool, weight: u64) -> (u64, u64)
    requires { AreSmall (with_weight sums good weight) }
    ensures { result ≡ with_weight sums good weight }
{
    if good {
        (sums.0 + weight, sums.1)
    } else {
        (sums.0, sums.1 + weight)
    }
}
