//! What is told of a call, which changes nothing of what it does.
use pg_audit::FalseLine;
use pg_dict::Dictionary;
use pg_patterns::PatternSet;
use pg_translate::Table;
use pg_types::{Params, Refusal};

/// The pass of a selection that begins.
#[derive(Clone, Copy, Debug, PartialEq, Eq)]
pub struct PassProgress {
    /// Its level, 1 to [`LEVEL_MAX`](pg_types::LEVEL_MAX).
    pub level: u8,
    /// The last level of the run.
    pub last: u8,
    /// How many signs its windows have.
    pub len: u8,
    /// The least length of the level.
    pub shortest: u8,
    /// The greatest length of the level.
    pub longest: u8,
    /// Behind how many signs of a window the dot stands.
    pub dot: u8,
}

/// The run of a sweep that begins. Its set and its fold are counted from 1.
#[derive(Clone, Copy, Debug, PartialEq, Eq)]
pub struct SweepRun {
    /// The set of parameters.
    pub set: usize,
    /// How many sets there are.
    pub sets: usize,
    /// The fold whose words are left out.
    pub fold: u8,
    /// How many folds there are.
    pub folds: u8,
}

/// A refused file. Patterns, dictionaries and packed tables are read under the letters of a table,
/// translate files and parameters without them.
#[derive(Clone, Copy)]
pub struct RefusedFile<'a> {
    /// The name of the file.
    pub name: &'a str,
    /// What was read of it, or nothing where it was to be written.
    pub bytes: &'a [u8],
    /// Which rule it breaks, and where.
    pub refusal: Refusal,
    /// The letters by which it was read, where there were any.
    pub letters: Option<&'a Table>,
}

/// An observer. Nothing is promised of its calls, and nothing is asked of it.
///
/// It is told of files and of passes, and never of a word or a position. Calls borrow it, so that
/// all engines of a sweep can share one. An observer that keeps something has it in a `Cell` or
/// `RefCell`.
pub trait Watch {
    /// The file of this name is read.
    fn reads(&self, name: &str);

    /// The file of this name is written.
    fn writes(&self, name: &str);

    /// The translate file of this name gave the letters.
    fn letters(&self, name: &str);

    /// The file of patterns with this name is accepted.
    fn patterns(&self, name: &str, bytes: &[u8]);

    /// The dictionary of this name is accepted under these letters.
    fn words(&self, name: &str, dictionary: &Dictionary, letters: &Table);

    /// A file is refused.
    fn refuses(&self, refused: &RefusedFile<'_>);

    /// A selection begins, with the patterns of the file of this name. `sweep` tells this once,
    /// before its first run, with the parameters whose first level is the lowest of those that run
    /// one.
    fn selects(&self, name: &str, params: &Params, start: &PatternSet);

    /// A run of a sweep begins.
    fn sweep_run(&self, sweep_run: SweepRun);

    /// A round of pruning begins, counted from 1.
    fn round(&self, round: u64);

    /// A pass begins.
    fn pass(&self, pass: PassProgress);

    /// The given file of this name has a false line, and should have this text.
    fn false_line(&self, name: &str, line: &FalseLine<'_>, text: &[u8]);

    /// The file that was told last could not be read or written.
    fn fails(&self);

    /// The answer is put now, as the last step.
    fn answers(&self);
}

/// An observer that does nothing.
#[derive(Clone, Copy, Debug, Default)]
pub struct Quiet;

impl Watch for Quiet {
    fn reads(&self, _name: &str) {}

    fn writes(&self, _name: &str) {}

    fn letters(&self, _name: &str) {}

    fn patterns(&self, _name: &str, _bytes: &[u8]) {}

    fn words(&self, _name: &str, _dictionary: &Dictionary, _letters: &Table) {}

    fn refuses(&self, _refused: &RefusedFile<'_>) {}

    fn selects(&self, _name: &str, _params: &Params, _start: &PatternSet) {}

    fn sweep_run(&self, _sweep_run: SweepRun) {}

    fn round(&self, _round: u64) {}

    fn pass(&self, _pass: PassProgress) {}

    fn false_line(&self, _name: &str, _line: &FalseLine<'_>, _text: &[u8]) {}

    fn fails(&self) {}

    fn answers(&self) {}
}
