//! The walk over the words in a pass that hyphenates each of them.
ghost use Rattle.std.specs.Prelude.{◌≡◌, ◌≤◌, ◌<◌, ◌+◌, ◌++◌, ◌&&◌, [], not, false, true, if◌then◌else◌, None, fold, length, slice_index_or, IfOk, OnOk};
ghost use Rattle.pg_types.specs.declared.limits.TheConstants.{WORD_LETTERS_MAX};
ghost use Rattle.pg_types.specs.Inside.Signs.{SignsWithin};
ghost use Rattle.pg_translate.specs.Reach.{positions as positions_of};
ghost use Rattle.pg_dict.specs.Inside.SoundWords.{IsWord, letter_count};
ghost use Rattle.pg_dict.specs.Inside.LentWords.{lent_word};
ghost use Rattle.pg_select.specs.CountedPositions.{counted_at, counts_as as counts_as_of};
ghost use Rattle.pg_select.specs.Inside.words.PositionLists.{counted_positions_at, counted_positions};
ghost use Rattle.pg_select.specs.Inside.words.WordCounts.{counted_positions_in};
ghost use Rattle.pg_select.specs.Inside.laws.AboveLevel.{counts_above};
ghost use Rattle.pg_select.specs.Statuses.{status_at, position_weight};
ghost use Rattle.pg_select.specs.Sums.{totals as totals_of_words};
ghost use Rattle.pg_select.specs.Inside.SumSteps.{marks_in, with_mark, with_marks, HasRoomFor, TookRoomFor};
ghost use Rattle.pg_select.specs.Windows.{fits as fits_in, window as window_of_word};
ghost use Rattle.pg_driver.specs.Inside.counting.Counting.{AreNumbersFor, HasRoom, IsBounded, IsRead, TookRoom};
ghost use Rattle.pg_driver.specs.Inside.counting.OpenSigns.{IsWordAt};
ghost use Rattle.pg_select.specs.Inside.engine.Meanings.{with_position};
ghost use Rattle.pg_starts.specs.Inside.StartCountings.{AreCounting, counts_in, windows_in};
ghost use Rattle.pg_dict.specs.Inside.Store.{all_signs};
ghost use Rattle.pg_driver.specs.Inside.counting.OpenLevels.{listed_in, listed_from, open_as};
ghost use Rattle.pg_driver.specs.Inside.level.PassWindows.{GetsNumber, HaveNumbers, NotesNumbers, uncovered_at};
ghost use Rattle.pg_driver.specs.Inside.records.SoundRecords.{IsSmall};
ghost use Rattle.pg_driver.specs.Inside.level.States.{HasBegun, IsPass};
ghost use Rattle.pg_driver.specs.Inside.counting.WordLevels.{listing};

use crate::counting::above_positions::{is_above, list_above};
use crate::counting::positions::{counts_as, fits};
use crate::pass_windows::{NO_NUMBER, WordPosition};
use pg_dict::{Dictionary, WordRef};
use pg_select::marks::{add_mark, mark_at, no_totals, positions};
use pg_select::{Engine, Pass, WordState};
use pg_starts::StartCounts;
use pg_translate::Table;
use pg_types::Totals;
use std::alloc::AllocError;

/// What position `p` of a word counts as in a pass. `good` says what it counts as by its status. It
/// counts only where its window fits in the word and is not covered.
fn counts_in_pass(
    pass: Pass,
    w: &WordRef<'_>,
    found: &WordState,
    p: usize,
    good: Option<bool>,
) -> Option<bool>
    requires within { p < length w.now.signs.now }
    requires short { length w.now.signs.now ≤ WORD_LETTERS_MAX + 2 }
    ensures { result ≡ (if fits_in w.now.signs.now p pass.len pass.dot && not
        (slice_index_or found.now.covers p false) then good else None) }
{
    let good = good?;
    if fits(pass, w.signs.len(), p) && !found.covered(p) {
        Some(good)
    } else {
        None
    }
}

/// Counts the window at position `p` of a word, where it counts in the pass, and gives its number.
/// `good` says what the position counts as by its status, and `before` signs of the dictionary stand
/// before those of the word. The number is `NO_NUMBER` where the window does not count. Only the
/// contract reads `engine`.
fn count_at<E: Engine>(
    engine: &E,
    dictionary: &Dictionary,
    pass: Pass,
    before: usize,
    w: &WordRef<'_>,
    found: &WordState,
    p: usize,
    good: Option<bool>,
    counts: &mut StartCounts,
) -> u32
    requires ranges { IsPass pass }
    requires pass { (E.meaning engine.now).pass ≡ pass }
    requires read { IsRead (E.meaning engine.now) (lent_word w.now) found.now }
    requires within { p < length w.now.signs.now }
    requires place { IsWordAt dictionary.now before (lent_word w.now) }
    requires counting { AreCounting (all_signs dictionary.now) counts.old }
    requires numbers { AreNumbersFor dictionary.now pass.len (λ d s. true) counts.old.numbers }
    requires good { good ≡ counts_as_of pass.level
        (status_at (E.meaning engine.now).patterns (lent_word w.now) p) }
    requires room { HasRoom (counts_in (all_signs dictionary.now) counts.old) 1 }
    ensures numbers { counts.new.numbers ≡ counts.old.numbers }
    ensures counting { AreCounting (all_signs dictionary.now) counts.new }
    ensures ok { counts_in (all_signs dictionary.now) counts.new
        ≡ fold with_position (counts_in (all_signs dictionary.now) counts.old)
        (counted_positions_at pass (E.meaning engine.now).patterns
        (E.meaning engine.now).hopeless (lent_word w.now) p) }
    ensures number { GetsNumber
        (counted_at pass (E.meaning engine.now).patterns
        (E.meaning engine.now).hopeless (lent_word w.now) p)
        (windows_in (all_signs dictionary.now) counts.new)
        (window_of_word w.now.signs.now p pass.len pass.dot) result }
{
    let Some(good) = counts_in_pass(pass, w, found, p, good) else {
        return NO_NUMBER;
    };
    let signs = dictionary.all_signs();
    let start = before + p - pass.dot as usize;
    counts.add(signs, start, good, u64::from(w.weights[p]));
    counts.number(signs, start)
}

/// Counts position `p` of a word, and adds it to the totals. Where its value is above the level and
/// it counts by its status, the number of its window is noted. Only the contract reads `engine` and
/// `word`.
fn count_position<E: Engine>(
    engine: &E,
    dictionary: &Dictionary,
    pass: Pass,
    word: u32,
    before: usize,
    w: &WordRef<'_>,
    found: &WordState,
    p: usize,
    sums: &mut Totals,
    counts: &mut StartCounts,
    numbers: &mut Vec<u32>,
) -> Result<(), AllocError>
    requires ranges { IsPass pass }
    requires pass { (E.meaning engine.now).pass ≡ pass }
    requires read { IsRead (E.meaning engine.now) (lent_word w.now) found.now }
    requires within { p < length w.now.signs.now }
    requires place { IsWordAt dictionary.now before (lent_word w.now) }
    requires counting { AreCounting (all_signs dictionary.now) counts.old }
    requires starts { AreNumbersFor dictionary.now pass.len (λ d s. true) counts.old.numbers }
    requires room { HasRoom (counts_in (all_signs dictionary.now) counts.old) 1 }
    requires room_for { HasRoomFor sums.old 1 }
    ensures kept { counts.new.numbers ≡ counts.old.numbers }
    ensures counting { AreCounting (all_signs dictionary.now) counts.new }
    ensures ok { counts_in (all_signs dictionary.now) counts.new
        ≡ fold with_position (counts_in (all_signs dictionary.now) counts.old)
        (counted_positions_at pass (E.meaning engine.now).patterns
        (E.meaning engine.now).hopeless (lent_word w.now) p) }
    ensures sums { sums.new
        ≡ with_mark sums.old (status_at (E.meaning engine.now).patterns (lent_word w.now) p)
        (position_weight (lent_word w.now) p) }
    ensures numbers { OnOk result (NotesNumbers pass word (lent_word w.now)
        (E.meaning engine.now) (windows_in (all_signs dictionary.now) counts.new)
        (open_as word p
        (counts_above pass.level (E.meaning engine.now).patterns (lent_word w.now) p))
        numbers.old.items numbers.new.items) }
{
    let mark = mark_at(w, found, p);
    *sums = add_mark(*sums, mark, w.weights[p]);
    let good = counts_as(pass.level, mark);
    let number = count_at(engine, dictionary, pass, before, w, found, p, good, counts);
    if is_above(pass.level, found, p, good) {
        numbers.push(number)?;
    }
    Ok(())
}

/// Counts the positions of a word, and adds them to the totals. For those that count and have a
/// value above the level, the numbers of their windows are noted. Where `lists` says so, they are
/// listed. `before` signs of the dictionary stand before those of the word. What `found` holds does
/// not matter.
fn count_word<E: Engine>(
    engine: &E,
    dictionary: &Dictionary,
    table: &Table,
    pass: Pass,
    word: u32,
    before: usize,
    w: &WordRef<'_>,
    found: &mut WordState,
    sums: &mut Totals,
    lists: bool,
    above: &mut Vec<WordPosition>,
    counts: &mut StartCounts,
    numbers: &mut Vec<u32>,
) -> Result<(), AllocError>
    requires ranges { IsPass pass }
    requires pass { (E.meaning engine.now).pass ≡ pass }
    requires word { IsWord (lent_word w.now) }
    requires signs { SignsWithin (E.meaning engine.now).signs w.now.signs.now }
    requires place { IsWordAt dictionary.now before (lent_word w.now) }
    requires counting { AreCounting (all_signs dictionary.now) counts.old }
    requires starts { AreNumbersFor dictionary.now pass.len (λ d s. true) counts.old.numbers }
    requires room { HasRoom (counts_in (all_signs dictionary.now) counts.old)
        (letter_count (lent_word w.now)) }
    requires room_for { HasRoomFor sums.old (letter_count (lent_word w.now)) }
    ensures kept { counts.new.numbers ≡ counts.old.numbers }
    ensures counting { AreCounting (all_signs dictionary.now) counts.new }
    ensures ok { OnOk result (counts_in (all_signs dictionary.now) counts.new
        ≡ fold with_position (counts_in (all_signs dictionary.now) counts.old)
        (counted_positions_in table.now pass (E.meaning engine.now).patterns
        (E.meaning engine.now).hopeless (lent_word w.now))) }
    ensures sums { OnOk result (sums.new
        ≡ with_marks sums.old
        (marks_in table.now (E.meaning engine.now).patterns (lent_word w.now))) }
    ensures above { OnOk result
        (above.new.items ≡ above.old.items ++ listed_in table.now
        (listing lists pass.level (E.meaning engine.now).patterns) word (lent_word w.now)) }
    ensures numbers { OnOk result (NotesNumbers pass word (lent_word w.now)
        (E.meaning engine.now) (windows_in (all_signs dictionary.now) counts.new)
        (listed_in table.now
        (counts_above pass.level (E.meaning engine.now).patterns) word (lent_word w.now))
        numbers.old.items numbers.new.items) }
    ensures took { OnOk result (TookRoom (counts_in (all_signs dictionary.now) counts.old)
        (counts_in (all_signs dictionary.now) counts.new) (letter_count (lent_word w.now))) }
    ensures took_for { OnOk result
        (TookRoomFor sums.old sums.new (letter_count (lent_word w.now))) }
    ensures reached { OnOk result (length (positions_of table.now.left table.now.right
        (length w.now.signs.now)) ≤ letter_count (lent_word w.now)) }
{
    let Some((first, end)) = positions(table, w) else {
        return Ok(());
    };
    engine.hyphenate(*w, found);
    'positions: for p in first..end {
        count_position(
            engine, dictionary, pass, word, before, w, found, p, sums, counts, numbers,
        )?;
    }
    if lists {
        list_above(table, pass.level, word, w, found, above)?;
    }
    Ok(())
}

/// Counts the windows of a pass that has begun, and gives the totals. Each word is hyphenated once.
/// Where `lists` says so, the positions that count and have a value above the level are listed.
/// Each of these has the number of its window noted.
pub fn count_words<E: Engine>(
    engine: &E,
    dictionary: &Dictionary,
    table: &Table,
    pass: Pass,
    lists: bool,
    above: &mut Vec<WordPosition>,
    counts: &mut StartCounts,
    numbers: &mut Vec<u32>,
) -> Result<Totals, AllocError>
    requires begun { HasBegun pass dictionary.now (E.meaning engine.now) }
    requires counting { AreCounting (all_signs dictionary.now) counts.old }
    requires starts { AreNumbersFor dictionary.now pass.len (λ d s. true) counts.old.numbers }
    requires fresh { counts_in (all_signs dictionary.now) counts.old ≡ [] }
    requires none { numbers.old.items ≡ [] }
    ensures kept { counts.new.numbers ≡ counts.old.numbers }
    ensures counting { AreCounting (all_signs dictionary.now) counts.new }
    ensures ok { OnOk result (counts_in (all_signs dictionary.now) counts.new
        ≡ fold with_position []
        (counted_positions table.now dictionary.now pass
        (E.meaning engine.now).patterns (E.meaning engine.now).hopeless)) }
    ensures totals { IfOk result (λ sums. sums
        ≡ totals_of_words table.now dictionary.now (E.meaning engine.now).patterns) }
    ensures small { IfOk result IsSmall }
    ensures bounded { OnOk result (IsBounded table.now dictionary.now) }
    ensures above { OnOk result
        (above.new.items ≡ above.old.items ++ listed_from table.now
        (listing lists pass.level (E.meaning engine.now).patterns) 0 dictionary.now) }
    ensures numbers { OnOk result (HaveNumbers pass
        (uncovered_at pass (E.meaning engine.now).patterns
        (E.meaning engine.now).hopeless) dictionary.now
        (windows_in (all_signs dictionary.now) counts.new) (listed_from table.now
        (counts_above pass.level
        (E.meaning engine.now).patterns) 0 dictionary.now) numbers.new.items) }
    ensures room { OnOk result (HasRoom (counts_in (all_signs dictionary.now) counts.new) 0) }
{
    let mut found = WordState::new();
    let mut sums = no_totals();
    let mut before = 0;
    'words: for i in 0..dictionary.len() {
        let w = dictionary.word(i);
        count_word(
            engine, dictionary, table, pass, i as u32, before, &w, &mut found, &mut sums, lists,
            above, counts, numbers,
        )?;
        before += w.signs.len();
    }
    Ok(sums)
}
