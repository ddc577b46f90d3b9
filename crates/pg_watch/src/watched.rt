//! An engine that is watched.
ghost use Rattle.std.specs.Prelude.{◌≡◌};

use crate::watch::{PassProgress, Watch};
use pg_dict::WordRef;
use pg_patterns::PatternSet;
use pg_select::{Engine, Pass, WordState};
use pg_types::{Cursor, Layout, Params, Sign, Weight};
use std::alloc::{AllocError, Global};

/// What is told of a pass in the selection by these parameters. If they have no such level, it is
/// said to have the length of this pass alone.
fn progress_of(params: &Params, pass: Pass) -> PassProgress {
    let index = usize::from(pass.level.saturating_sub(params.start()));
    let (shortest, longest) = if index < params.count() {
        let level = params.level(index);
        (level.pat_start, level.pat_finish)
    } else {
        (pass.len, pass.len)
    };
    PassProgress {
        level: pass.level,
        last: params.finish(),
        len: pass.len,
        shortest,
        longest,
        dot: pass.dot,
    }
}

/// An engine for the selection by these parameters, with a borrowed observer.
#[derive(Drop)]
pub struct Watched<'a, E, W> {
    inner: E,
    params: &'a Params,
    watch: &'a W,
}

impl<'a, E, W> Watched<'a, E, W> {
    /// The engine, watched by this observer in the selection by these parameters.
    pub fn new(inner: E, params: &'a Params, watch: &'a W) -> Watched<'a, E, W>
        ensures { result.inner ≡ inner }
    {
        Watched {
            inner,
            params,
            watch,
        }
    }
}

impl<'a, E: Engine, W: Watch> Engine for Watched<'a, E, W> {
    ghost meaning = { λ watched. E.meaning watched.inner };

    fn kept(&self) {
        self.inner.kept();
    }

    fn begin_pass(&mut self, level: u8, len: u8, dot: u8) {
        let pass = Pass { level, len, dot };
        self.watch.pass(progress_of(self.params, pass));
        self.inner.begin_pass(level, len, dot);
    }

    fn hyphenate(&self, w: WordRef<'_>, out: &mut WordState) {
        self.inner.hyphenate(w, out);
    }

    fn count(&mut self, window: &[Sign], good: bool, weight: Weight) -> Result<(), AllocError> {
        self.inner.count(window, good, weight)
    }

    fn sums(&self, window: &[Sign]) -> Option<(u64, u64)> {
        self.inner.sums(window)
    }

    fn next_candidate(&self, at: &mut Cursor) -> Option<(u64, u64)> {
        self.inner.next_candidate(at)
    }

    fn choose(&mut self, at: &Cursor) -> Result<(), AllocError> {
        self.inner.choose(at)
    }

    fn give_up(&mut self, at: &Cursor) -> Result<(), AllocError> {
        self.inner.give_up(at)
    }

    fn end_level(&mut self) -> Result<(), AllocError> {
        self.inner.end_level()
    }

    fn copy_patterns(&self, alloc: Global) -> Result<PatternSet, AllocError> {
        self.inner.copy_patterns(alloc)
    }

    fn layout(&self) -> Option<Layout> {
        self.inner.layout()
    }
}
