//! The contract of an engine, which holds patterns and counts windows.
ghost use Rattle.std.specs.Prelude.{◌≡◌, ◌≤◌, ◌<◌, ◌+◌, length, IfOk, OnOk, OnErr};
ghost use Rattle.pg_types.specs.declared.limits.TheConstants.{LEVEL_MAX, LENGTH_MAX, WORD_LETTERS_MAX};
ghost use Rattle.pg_types.specs.Inside.Limits.{begun_before_pass};
ghost use Rattle.pg_types.specs.Inside.Signs.{SignsWithin};
ghost use Rattle.pg_types.specs.Inside.counting.Counts.{IsNextAbove, counted_sums};
ghost use Rattle.pg_select.specs.Inside.engine.EngineCalls.{CanCount, CanEnter, CountsWindow, Enters};
ghost use Rattle.pg_select.specs.Inside.engine.Meanings.{Meaning, IsMeaning, IsLayout, after_begin_pass, after_choose, after_give_up, after_end_level};
ghost use Rattle.pg_select.specs.Inside.words.Positions.{HasValues, HasCovers};

use crate::word_state::WordState;
use pg_dict::WordRef;
use pg_patterns::PatternSet;
use pg_types::{Cursor, Layout, Sign, Weight};
use std::alloc::{AllocError, Global};

/// What the levels and passes of a run are made over. It holds patterns that give values to
/// positions, hopeless dotted strings that cover longer windows, and the counts of the windows of a
/// pass.
///
/// A run begins each pass, and chooses some of the windows that it counts and gives up others. It
/// hyphenates each word once in each pass of the levels up to the greatest starting value, and once
/// at the start of the next level. What a call does not name stays as it was.
///
/// A run counts windows by the numbers of their starts, outside of the engine. `count`, `sums` and
/// `next_candidate` are for callers that know windows by their signs, as tests do.
///
/// An engine is *tidy* when the tails that `layout` gives are sure to be those of its patterns. It
/// is so when it is new, and after `end_level` until a window is chosen or given up.
pub trait Engine {
    ghost meaning: { Self → Meaning };

    /// Tells what every engine keeps: its maps stand in order, each value is 1 to
    /// [`LEVEL_MAX`](pg_types::LEVEL_MAX), and no sign is above the greatest. A call does nothing.
    /// A law of this trait would need no call, but then each engine would have to keep such facts
    /// in fields of its own, and to prove them at each change.
    fn kept(&self)
        ensures { IsMeaning (meaning self.now) };

    /// Begins the pass of `level` with windows of `len` signs whose dot is behind `dot` of them.
    /// Nothing is counted in it yet.
    fn begin_pass(&mut self, level: u8, len: u8, dot: u8)
        requires level { (1 ≤ level) × (level ≤ LEVEL_MAX) }
        requires len { (1 ≤ len) × (len ≤ LENGTH_MAX) }
        requires dot { dot ≤ len }
        requires begun { (meaning self.old).begun < begun_before_pass }
        ensures { meaning self.new ≡ after_begin_pass (meaning self.old) level len dot };

    /// The value of each position of a word, and for each position whose window of the pass fits in
    /// the word, whether that window is covered. Nothing is said of the cover of other positions.
    /// It takes no memory.
    fn hyphenate(&self, w: WordRef<'_>, out: &mut WordState)
        requires len { length w.signs.now ≤ WORD_LETTERS_MAX + 2 }
        requires signs { SignsWithin (meaning self.now).signs w.signs.now }
        ensures values { HasValues (meaning self.now).patterns w.entry.signs.now out.new.values }
        ensures covers { let m = meaning self.now in
            HasCovers m.pass m.patterns m.hopeless w.entry.signs.now out.new.covers };

    /// Adds `weight` to the good or the bad sum of a window. A window that is counted already takes
    /// no memory.
    fn count(&mut self, window: &[Sign], good: bool, weight: Weight) -> Result<(), AllocError>
        requires { CanCount (meaning self.old) window.now good weight }
        ensures { CountsWindow result
            (meaning self.old) (meaning self.new) window.now good weight };

    /// The good and the bad sum of a window; none exactly where it is not counted. It takes no
    /// memory.
    fn sums(&self, window: &[Sign]) -> Option<(u64, u64)>
        requires len { length window.now ≡ (meaning self.now).pass.len }
        requires signs { SignsWithin (meaning self.now).signs window.now }
        ensures { result ≡ counted_sums (meaning self.now).counts window.now };

    /// Moves the cursor to the least counted window that is greater, and gives its good and bad
    /// sums; none exactly where there is no such window, and the cursor stays. It takes no memory.
    fn next_candidate(&self, at: &mut Cursor) -> Option<(u64, u64)>
        ensures { IsNextAbove (meaning self.now).counts at.old at.new result };

    /// Gives the window at the cursor the level as its value, where it has no greater one, at the
    /// dot of the pass. The window is counted, or one of the pass that is counted elsewhere. It is
    /// entered into families that are told. After an error a part of
    /// it may have been entered.
    fn choose(&mut self, at: &Cursor) -> Result<(), AllocError>
        requires { CanEnter (meaning self.old) at.now }
        ensures { Enters result after_choose (meaning self.old) (meaning self.new) at.now };

    /// Makes the window at the cursor hopeless at the dot of the pass, to the end of the level. The
    /// window is entered into families that are told. After an error a part of it may have been
    /// entered.
    fn give_up(&mut self, at: &Cursor) -> Result<(), AllocError>
        requires { CanEnter (meaning self.old) at.now }
        ensures { Enters result after_give_up (meaning self.old) (meaning self.new) at.now };

    /// Ends the level: nothing is hopeless any more, and families that are told lose the cells that
    /// no pattern needs. Afterwards the engine is tidy.
    fn end_level(&mut self) -> Result<(), AllocError>
        ensures ok { OnOk result (meaning self.new ≡ after_end_level (meaning self.old)) }
        ensures err { OnErr result (meaning self.new ≡ meaning self.old) };

    /// The patterns.
    fn copy_patterns(&self, alloc: Global) -> Result<PatternSet, AllocError>
        ensures { IfOk result (λ patterns. patterns ≡ (meaning self.now).patterns) };

    /// The numbers of the families; none exactly where they are not told. The tails are right where
    /// the engine is tidy. It takes no memory.
    fn layout(&self) -> Option<Layout>
        ensures { IsLayout (meaning self.now) result };
}
