//! A level in which each word is hyphenated in each pass. Its totals are carried from pass to pass.
ghost use Rattle.std.specs.Prelude.{◌≡◌, [], false, true, IfOk, OnOk};
ghost use Rattle.pg_dict.specs.Inside.Store.{all_signs};
ghost use Rattle.pg_starts.specs.Inside.StartCountings.{AreCounting, counts_in, windows_in};
ghost use Rattle.pg_driver.specs.Inside.counting.Counting.{AreNumbersFor};
ghost use Rattle.pg_driver.specs.Inside.level.PassWindows.{HaveNumbers, is_counted_at};
ghost use Rattle.pg_driver.specs.Inside.level.States.{HasBegun};
ghost use Rattle.pg_driver.specs.Inside.records.RunAccounts.{known_of};
ghost use Rattle.pg_select.specs.Statuses.{is_odd};
ghost use Rattle.pg_driver.specs.Inside.counting.LevelCounting.{CanMove, DidCount, IsAfterWords};
ghost use Rattle.pg_driver.specs.Inside.counting.WordLevels.{IsWordsAt};

use crate::choices::Choices;
use crate::counting::above_positions::ChosenWeights;
use crate::counting::carried_totals::totals_after;
use crate::counting::words::count_words;
use crate::pass_windows::WordPosition;
use pg_dict::Dictionary;
use pg_select::marks::no_totals;
use pg_select::{Engine, Pass};
use pg_starts::StartCounts;
use pg_translate::Table;
use pg_types::Totals;
use std::alloc::{AllocError, Global};

/// A level in which each word is hyphenated in each pass. The first pass that is counted lists the
/// positions whose value is above the level: they stay the same in the level.
#[derive(Drop)]
pub struct WordLevel {
    /// Whether a pass was counted.
    pub is_counted: bool,
    /// The positions that count and have a value above the level, once a pass was counted.
    pub above: Vec<WordPosition>,
    /// The totals, once a pass was counted.
    pub totals: Totals,
}

impl WordLevel {
    /// A level that begins: no pass was counted.
    pub fn new(alloc: Global) -> WordLevel
        ensures counted { result.is_counted ≡ false }
        ensures above { result.above.items ≡ [] }
    {
        WordLevel {
            is_counted: false,
            above: Vec::new(alloc),
            totals: no_totals(),
        }
    }

    /// Counts the windows of a pass that has begun, and gives the totals before it. Each word is
    /// hyphenated once. Each listed position gets the number of its window, or `NO_NUMBER`.
    pub fn count_each_word<E: Engine>(
        &mut self,
        engine: &E,
        dictionary: &Dictionary,
        table: &Table,
        pass: Pass,
        counts: &mut StartCounts,
        numbers: &mut Vec<u32>,
    ) -> Result<Totals, AllocError>
        requires begun { HasBegun pass dictionary.now (E.meaning engine.now) }
        requires counting { AreCounting (all_signs dictionary.now) counts.old }
        requires starts { AreNumbersFor dictionary.now pass.len (λ d s. true) counts.old.numbers }
        requires fresh { counts_in (all_signs dictionary.now) counts.old ≡ [] }
        requires none { numbers.old.items ≡ [] }
        requires ready { IsWordsAt table.now dictionary.now pass.level
            (known_of (E.meaning engine.now))
            self.old }
        ensures kept { counts.new.numbers ≡ counts.old.numbers }
        ensures counting { AreCounting (all_signs dictionary.now) counts.new }
        ensures did { IfOk result (DidCount table.now dictionary.now pass
            (E.meaning engine.now) (counts_in (all_signs dictionary.now) counts.new)) }
        ensures ready { OnOk result (IsWordsAt table.now dictionary.now pass.level
            (known_of (E.meaning engine.now)) self.new) }
        ensures counted { OnOk result (self.new.is_counted ≡ true) }
        ensures numbers { OnOk result
            (HaveNumbers pass (is_counted_at pass (counts_in (all_signs dictionary.now) counts.new))
            dictionary.now (windows_in (all_signs dictionary.now) counts.new)
            self.new.above.items numbers.new.items) }
    {
        let lists = !self.is_counted;
        let before = count_words(
            engine,
            dictionary,
            table,
            pass,
            lists,
            &mut self.above,
            counts,
            numbers,
        )?;
        self.is_counted = true;
        self.totals = before;
        Ok(before)
    }

    /// Carries the totals on past the choices of a pass. `kept` are the weights of listed positions
    /// among what was chosen. The values of these positions do not change, so the weights are left
    /// out.
    pub fn after_choices(&mut self, level: u8, choices: Choices, kept: ChosenWeights)
        requires { CanMove (is_odd level) self.old.totals choices kept }
        ensures { IsAfterWords (is_odd level) choices kept self.old self.new }
    {
        let good = choices.good - kept.good;
        let bad = choices.bad - kept.bad;
        self.totals = totals_after(self.totals, level, good, bad);
    }
}
