//! The choice among candidates, and the status of a position.
ghost use Rattle.std.specs.Prelude.{◌≡◌, ◌<◌, ◌≤◌};
ghost use Rattle.pg_types.specs.Inside.Limits.{sums_limit};
ghost use Rattle.pg_types.specs.Inside.Ranges.{IsLevel};
ghost use Rattle.pg_select.specs.Inside.Choices.{choice};
ghost use Rattle.pg_select.specs.Statuses.{status as status_of};

use pg_types::{LevelParams, Mark};

/// What becomes of a candidate at the end of its pass.
#[derive(Clone, Copy, Debug, PartialEq, Eq)]
pub enum Choice {
    /// It cannot reach the threshold, and covers longer windows to the end of the level.
    Hopeless,
    /// It becomes a pattern of the level.
    Chosen,
    /// Longer windows may decide.
    Left,
}

/// What becomes of a candidate with these sums of good and bad weights, by the weights and the
/// threshold of its level (Liang's thesis, patgen).
pub fn decide(good: u64, bad: u64, p: &LevelParams) -> Choice
    requires good { good < sums_limit }
    requires bad { bad < sums_limit }
    requires level { IsLevel p.now }
    ensures { result ≡ choice p.now good bad }
{
    let worth = good * u64::from(p.good_wt);
    let threshold = u64::from(p.thresh);
    let needed = threshold + bad * u64::from(p.bad_wt);
    if worth < threshold {
        Choice::Hopeless
    } else if worth >= needed {
        Choice::Chosen
    } else {
        Choice::Left
    }
}

/// The status of a position with this hyphen, care and value: an odd value breaks the word.
pub fn status(hyphen: bool, care: bool, value: u8) -> Mark
    ensures { result ≡ status_of hyphen care value }
{
    let breaks = value % 2 == 1;
    match (care, hyphen, breaks) {
        (false, _, _) => Mark::DontCare,
        (true, true, true) => Mark::Found,
        (true, true, false) => Mark::Missed,
        (true, false, true) => Mark::Error,
        (true, false, false) => Mark::Nothing,
    }
}
