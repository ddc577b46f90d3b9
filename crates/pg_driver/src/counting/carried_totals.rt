//! The totals after a pass, from those before it.
ghost use Rattle.std.specs.Prelude.{◌≤◌, ◌<◌, MatchBool};
ghost use Rattle.pg_select.specs.Inside.laws.Steps.{FindsMore, PreventsMore};
ghost use Rattle.pg_select.specs.Statuses.{is_odd};
ghost use Rattle.pg_driver.specs.Inside.records.SoundRecords.{IsSmall};
ghost use Rattle.pg_types.specs.Inside.Limits.{sums_limit};

use pg_types::Totals;

/// The totals after a pass whose chosen windows have these sums of good and bad weights.
///
/// At an odd level, the good sum moves from missed to found, and the bad sum is added to the
/// errors. At an even level, the good sum leaves the errors, and the bad sum moves from found to
/// missed.
pub fn totals_after(before: Totals, level: u8, good: u64, bad: u64) -> Totals
    requires small { IsSmall before }
    requires sums { (good < sums_limit) × (bad < sums_limit) }
    requires within { MatchBool (is_odd level) (good ≤ before.missed)
        ((bad ≤ before.good) × (good ≤ before.bad)) }
    ensures { MatchBool (is_odd level) (FindsMore before result good bad)
        (PreventsMore before result good bad) }
{
    if level % 2 == 1 {
        Totals {
            good: before.good + good,
            bad: before.bad + bad,
            missed: before.missed - good,
        }
    } else {
        Totals {
            good: before.good - bad,
            bad: before.bad - good,
            missed: before.missed + bad,
        }
    }
}
