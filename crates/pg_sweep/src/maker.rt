//! How a sweep gets its engines.
use pg_patterns::PatternSet;
use pg_select::Engine;
use std::alloc::{AllocError, Global};

/// Makes the engines of a sweep, one after the other. So this crate knows no engine and no
/// observer: a maker may tell which run begins.
pub trait Maker {
    ghost use Rattle.std.specs.Prelude.{◌≡◌, IfOk};
    ghost use Rattle.pg_types.specs.Inside.Signs.{IsSignCount};
    ghost use Rattle.pg_patterns.specs.Inside.PatternMaps.{SignsUpTo};
    ghost use Rattle.pg_select.specs.Inside.engine.Meanings.{new_engine};

    /// The engines that it makes.
    type Made: Engine + Drop;

    /// An engine with the greatest sign `signs` and the patterns `start`. Nothing is hopeless or
    /// counted, no pass was begun, and the engine is tidy.
    fn make(&self, alloc: Global, signs: u16, start: &PatternSet) -> Result<Self::Made, AllocError>
        requires signs { IsSignCount signs }
        requires known { SignsUpTo signs start.now }
        ensures { IfOk result (λ engine. Self.Made.meaning engine
            ≡ new_engine signs start.now (Self.Made.meaning engine).families) };
}
