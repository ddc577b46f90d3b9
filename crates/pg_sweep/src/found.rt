//! What a sweep found.
use crate::rows::{SweepRow, number_of_winner};
use std::marker::Model;

/// What a sweep found: a row for each set of parameters, in order, and which row is the cheapest.
#[derive(Drop)]
pub struct Sweep {
    rows: Vec<SweepRow>,
    winner: usize,
}

impl Model for Sweep {
    ghost use Rattle.pg_sweep.specs.Inside.RowsAndWinner.{RowsAndWinner};
    ghost use Rattle.pg_sweep.specs.Promises.{costs_of, IsWinner};

    ghost Value = { RowsAndWinner };

    ghost view = { λ s. record { rows = s.rows.items; winner = s.winner } };

    ghost invariant = { λ s. IsWinner (costs_of s.rows.items) s.winner };
}

impl Sweep {
    ghost use Rattle.std.specs.Prelude.{◌≡◌, ◌≤◌, length};
    ghost use Rattle.pg_sweep.specs.Winners.{winner_of};
    ghost use Rattle.pg_sweep.specs.Promises.{costs_of, IsWinner};

    /// What a sweep with these rows found.
    pub(crate) fn new(rows: Vec<SweepRow>) -> Sweep
        requires { 1 ≤ length rows.items }
        ensures { result ≡ record { rows = rows.items; winner = winner_of (costs_of rows.items) } }
    {
        let winner = number_of_winner(&rows);
        Sweep { rows, winner }
    }

    /// The rows, one for each set in order.
    pub fn rows(&self) -> &[SweepRow]
        ensures { result.now ≡ self.now.rows }
    {
        self.rows.as_slice()
    }

    /// The number of the winner, counted from 1: no row costs less, and each row before it costs
    /// more.
    pub fn winner(&self) -> usize
        ensures value { result ≡ self.now.winner }
        ensures least { IsWinner (costs_of self.now.rows) result }
    {
        self.winner
    }
}
