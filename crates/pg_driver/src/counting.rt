//! The ways to count the windows of a level.
ghost use Rattle.std.specs.Prelude.{◌≡◌, ◌≤◌, ◌<◌, ◌+◌, ◌-◌, List, [], ℕ, length, IfOk, OnOk};
ghost use Rattle.pg_types.specs.declared.limits.TheConstants.{LENGTH_MAX};
ghost use Rattle.pg_dict.specs.Word.{Word};
ghost use Rattle.pg_translate.specs.Alphabets.{Alphabet};
ghost use Rattle.pg_dict.specs.Inside.Store.{all_signs};
ghost use Rattle.pg_starts.specs.Inside.Known.{AreKnown};
ghost use Rattle.pg_starts.specs.Inside.StartCountings.{AreCounting, counts_in, windows_in};
ghost use Rattle.pg_dict.specs.Inside.SoundWords.{SignsAtMost};
ghost use Rattle.pg_select.specs.Inside.laws.Steps.{IsBelow};
ghost use Rattle.pg_driver.specs.declared.pass_windows.TheConstants.{NO_NUMBER};
ghost use Rattle.pg_driver.specs.Inside.counting.LevelCounting.{AreInWords, AreListed, AreNumbersIn, HasSize, CanGoOn, DidCount, GoesOnAfter, HasEnded, IsCounted, IsOverOpen, IsReady, totals_carried};
ghost use Rattle.pg_driver.specs.Inside.level.PassWindows.{AreFates};
ghost use Rattle.pg_driver.specs.Inside.level.States.{HasBegun, IsPass};
ghost use Rattle.pg_driver.specs.Inside.records.RunAccounts.{known_of};
ghost use Rattle.pg_driver.specs.Traces.{Knowledge};
ghost use Rattle.pg_patterns.specs.Values.{Patterns};

mod above_positions;
mod carried_totals;
mod open_passes;
mod open_positions;
mod positions;
mod word_level;
mod words;

use crate::choices::Choices;
use crate::counting::above_positions::kept_above;
use crate::counting::carried_totals::totals_after;
use crate::counting::open_passes::{close_dots, count_open};
use crate::counting::open_positions::{OpenLevel, open_level};
use crate::counting::word_level::WordLevel;
use crate::pass_windows::PassWindows;
use pg_dict::Dictionary;
use pg_select::{Engine, Pass};
use pg_translate::Table;
use pg_types::{LevelParams, Totals};
use std::alloc::{AllocError, Global};

/// How the windows of a level are counted.
#[derive(Drop)]
pub enum WayToCount {
    /// At the open positions: words are hyphenated at the start of the first such level alone. This
    /// is exact where no pattern has a value as great as the level when the level begins.
    Open(OpenLevel),
    /// At the positions of each word, which is hyphenated anew in each pass.
    EachWord(WordLevel),
}

impl WayToCount {
    /// Before the first level: no position is open.
    pub fn new(alloc: Global) -> WayToCount
        ensures { (T : Alphabet) (W : List Word) (level : ℕ) (P : Patterns)
            → HasEnded T W level P result }
    {
        WayToCount::EachWord(WordLevel::new(alloc))
    }

    /// Goes on to a level that begins: over open positions, unless a starting pattern has a value
    /// of the level or more. `greatest` is the greatest value of the starting patterns.
    ///
    /// Where the level before was over open positions, those of the level follow from what is left
    /// of them. By its status when the level begins, a position with care counts at one of the two
    /// levels and not at the other. No word is hyphenated then.
    pub fn begin_level<E: Engine>(
        &mut self,
        alloc: Global,
        engine: &E,
        dictionary: &Dictionary,
        table: &Table,
        level: u8,
        greatest: u8,
    ) -> Result<(), AllocError>
        requires first { 1 ≤ level }
        requires signs { SignsAtMost (E.meaning engine.now).signs dictionary.now }
        requires hopeless { (E.meaning engine.now).hopeless ≡ [] }
        requires below { greatest < level → IsBelow level (E.meaning engine.now).patterns }
        requires ended { HasEnded table.now dictionary.now (level - 1)
            (E.meaning engine.now).patterns self.old }
        ensures ready { OnOk result ((len : ℕ)
            → IsReady table.now dictionary.now level len
            (known_of (E.meaning engine.now)) self.new) }
        ensures form { OnOk result (greatest < level → IsOverOpen self.new) }
    {
        if level <= greatest {
            *self = WayToCount::EachWord(WordLevel::new(alloc));
            return Ok(());
        }
        if let WayToCount::Open(open) = self {
            open.dots.next_level(&open.never);
            return Ok(());
        }
        let opened = open_level(engine, dictionary, table, level, alloc)?;
        *self = WayToCount::Open(opened);
        Ok(())
    }

    /// Numbers the windows of a length that its passes may count.
    pub fn number(
        &self,
        alloc: Global,
        dictionary: &Dictionary,
        len: u8,
        windows: &mut PassWindows,
    ) -> Result<(), AllocError>
        requires len { (1 ≤ len) × (len ≤ LENGTH_MAX) }
        requires size { HasSize dictionary.now self.now }
        requires known { AreKnown (all_signs dictionary.now) windows.old.counts.numbers }
        ensures known { AreKnown (all_signs dictionary.now) windows.new.counts.numbers }
        ensures numbers { OnOk result
            (AreNumbersIn dictionary.now len windows.new.counts.numbers self.now) }
    {
        let _words = dictionary.len();
        let signs = dictionary.all_signs();
        match self {
            WayToCount::Open(open) => windows.counts.number_open(alloc, signs, &open.dots, len),
            WayToCount::EachWord(_) => windows.counts.number_all(alloc, signs, len),
        }
    }

    /// Counts the windows of a pass that has begun, and gives the totals before it. Its windows
    /// have numbers. `windows` gets the number of the window of each position that is listed.
    pub fn count<E: Engine>(
        &mut self,
        engine: &E,
        dictionary: &Dictionary,
        table: &Table,
        pass: Pass,
        windows: &mut PassWindows,
    ) -> Result<Totals, AllocError>
        requires begun { HasBegun pass dictionary.now (E.meaning engine.now) }
        requires ready { IsReady table.now dictionary.now pass.level pass.len
            (known_of (E.meaning engine.now)) self.old }
        requires numbers { AreNumbersIn dictionary.now pass.len windows.old.counts.numbers self.old }
        ensures did { IfOk result (DidCount table.now dictionary.now pass
            (E.meaning engine.now) (counts_in (all_signs dictionary.now) windows.new.counts)) }
        ensures ready { OnOk result (IsReady table.now dictionary.now
            pass.level pass.len (known_of (E.meaning engine.now)) self.new) }
        ensures counted { OnOk result (IsCounted self.new) }
        ensures counting { OnOk result
            (AreCounting (all_signs dictionary.now) windows.new.counts) }
        ensures numbers { OnOk result
            (AreNumbersIn dictionary.now pass.len windows.new.counts.numbers self.new) }
        ensures listed { OnOk result
            (AreListed pass (counts_in (all_signs dictionary.now) windows.new.counts)
            dictionary.now (windows_in (all_signs dictionary.now) windows.new.counts)
            self.new windows.new.numbers.items) }
    {
        windows.counts.begin(dictionary.all_signs())?;
        windows.numbers.clear();
        match self {
            WayToCount::Open(open) => {
                open.dots.reach(pass.dot)?;
                count_open(dictionary, pass, &open.dots, &mut windows.counts);
                Ok(open.totals)
            }
            WayToCount::EachWord(level) => {
                let numbers = &mut windows.numbers;
                let counts = &mut windows.counts;
                level.count_each_word(engine, dictionary, table, pass, counts, numbers)
            }
        }
    }

    /// Takes in the choices of a pass: closes dots of open positions, and carries the totals on. A
    /// position whose value is above the level keeps its value, so its weight is left out of what
    /// was chosen. It takes no memory. Only the contract reads `params`.
    pub fn after_choices(
        &mut self,
        dictionary: &Dictionary,
        params: &LevelParams,
        pass: Pass,
        choices: Choices,
        windows: &PassWindows,
    )
        requires ranges { IsPass pass }
        requires placed { AreInWords dictionary.now self.old }
        requires counting { AreCounting (all_signs dictionary.now) windows.now.counts }
        requires numbers { AreNumbersIn dictionary.now pass.len windows.now.counts.numbers self.old }
        requires fates { AreFates params.now
            (counts_in (all_signs dictionary.now) windows.now.counts)
            (windows_in (all_signs dictionary.now) windows.now.counts) windows.now.fates.items }
        requires few { length windows.now.fates.items ≤ NO_NUMBER }
        requires listed { AreListed pass
            (counts_in (all_signs dictionary.now) windows.now.counts) dictionary.now
            (windows_in (all_signs dictionary.now) windows.now.counts) self.old
            windows.now.numbers.items }
        requires totals { CanGoOn params.now pass
            (counts_in (all_signs dictionary.now) windows.now.counts) dictionary.now
            choices self.old }
        ensures after { GoesOnAfter params.now pass
            (counts_in (all_signs dictionary.now) windows.now.counts) dictionary.now
            choices self.old self.new }
        ensures numbers { AreNumbersIn dictionary.now pass.len windows.now.counts.numbers self.new }
    {
        match self {
            WayToCount::Open(open) => {
                let fates = &windows.fates;
                close_dots(dictionary, pass, &windows.counts, fates, &mut open.dots);
                open.totals = totals_after(open.totals, pass.level, choices.good, choices.bad);
            }
            WayToCount::EachWord(words) => {
                let kept = kept_above(
                    dictionary,
                    pass,
                    &windows.fates,
                    &windows.numbers,
                    &words.above,
                );
                words.after_choices(pass.level, choices, kept);
            }
        }
    }

    /// Goes on to the next length.
    pub fn next_length(&mut self) -> Result<(), AllocError>
        ensures ready { OnOk result ((T : Alphabet) (W : List Word)
            (level len : ℕ) (known : Knowledge) → IsReady T W level len known self.old
            → IsReady T W level (len + 1) known self.new) }
        ensures counted { OnOk result (IsCounted self.old → IsCounted self.new) }
    {
        if let WayToCount::Open(open) = self {
            open.dots.next_length()?;
        }
        Ok(())
    }

    /// The totals by the patterns as they are now, where a pass was counted. No word is hyphenated
    /// for them.
    pub fn totals(&self) -> Totals
        ensures { result ≡ totals_carried self.now }
    {
        match self {
            WayToCount::Open(open) => open.totals,
            WayToCount::EachWord(words) => words.totals,
        }
    }
}
