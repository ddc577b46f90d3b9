//! The engines of a sweep, whose runs are watched.
ghost use Rattle.std.specs.Prelude.{◌≤◌, length};

use pg_packed::PackedEngine;
use pg_patterns::PatternSet;
use pg_sweep::Maker;
use pg_types::Params;
use pg_watch::{SweepRun, Watch, Watched};
use std::alloc::{AllocError, Global};
use std::cell::Cell;

/// Makes packed engines that are watched. It is asked for one for each set of parameters and fold,
/// set by set.
#[derive(Drop)]
pub struct WatchedMaker<'a, W> {
    sets: &'a [Params],
    /// The first of the sets.
    first: &'a Params,
    folds: u8,
    /// The set and the fold that come next, both counted from 0.
    next: Cell<(usize, u8)>,
    watch: &'a W,
}

impl<'a, W: Watch> WatchedMaker<'a, W> {
    /// A maker that was asked for no engine so far. There is at least one set.
    pub fn new(sets: &'a [Params], folds: u8, watch: &'a W) -> WatchedMaker<'a, W>
        requires { 1 ≤ length sets.now }
    {
        WatchedMaker {
            sets,
            first: &sets[0],
            folds,
            next: Cell::new((0, 0)),
            watch,
        }
    }

    /// Tells the observer which run begins, and gives the parameters of that run.
    fn next_run(&self) -> &'a Params {
        let (set, fold) = self.next.get();
        let fold = fold.saturating_add(1);
        self.watch.sweep_run(SweepRun {
            set: set.saturating_add(1),
            sets: self.sets.len(),
            fold,
            folds: self.folds,
        });
        self.next.set(if fold < self.folds {
            (set, fold)
        } else {
            (set.saturating_add(1), 0)
        });
        match self.sets.get(set) {
            Some(params) => params,
            None => self.first,
        }
    }
}

impl<'a, W: Watch> Maker for WatchedMaker<'a, W> {
    type Made = Watched<'a, PackedEngine, W>;

    fn make(
        &self,
        alloc: Global,
        signs: u16,
        start: &PatternSet,
    ) -> Result<Watched<'a, PackedEngine, W>, AllocError> {
        let params = self.next_run();
        let engine = PackedEngine::new(alloc, signs, start)?;
        Ok(Watched::new(engine, params, self.watch))
    }
}
