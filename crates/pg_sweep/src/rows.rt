//! The rows of a sweep, and the winner among them.
ghost use Rattle.std.specs.Prelude.{◌≡◌, ◌≤◌, length};
ghost use Rattle.pg_sweep.specs.Promises.{costs_of};
ghost use Rattle.pg_sweep.specs.Winners.{winner_of};

use pg_types::Totals;

/// What a set of parameters came to: the totals of the words that were left out, over all folds,
/// and what these cost.
#[derive(Clone, Copy, Debug, PartialEq, Eq)]
pub struct SweepRow {
    pub totals: Totals,
    /// The bad sum times the price of bad, and the missed sum times that of missed, together.
    pub cost: u64,
}

/// The number of the first row with the least cost, counted from 1.
pub(crate) fn number_of_winner(rows: &[SweepRow]) -> usize
    requires { 1 ≤ length rows.now }
    ensures { result ≡ winner_of (costs_of rows.now) }
{
    let mut winner = 1;
    let mut least = rows[0].cost;
    'rows: for i in 1..rows.len() {
        if rows[i].cost < least {
            winner = i + 1;
            least = rows[i].cost;
        }
    }
    winner
}
