//! The open positions of a level: those that count by their status, with their closed dots. The
//! totals stand beside them, and the positions that count at no level.
ghost use Rattle.std.specs.Prelude.{◌≡◌, ◌≤◌, ◌<◌, ◌+◌, ◌-◌, ◌==◌, ◌&&◌, ℕ, not, length, slice_get, Some, IfOk, OnOk, is_some};
ghost use Rattle.pg_types.specs.Inside.Limits.{positions_limit};
ghost use Rattle.pg_types.specs.Inside.Signs.{SignsWithin};
ghost use Rattle.pg_dots.specs.Inside.Dots.{is_closed, position_count};
ghost use Rattle.pg_dots.specs.Inside.Positions.{is_among, positions_room};
ghost use Rattle.pg_translate.specs.Reach.{positions as positions_of};
ghost use Rattle.pg_dict.specs.Word.{Word};
ghost use Rattle.pg_dict.specs.Inside.SoundWords.{IsWord, SignsAtMost, letter_count};
ghost use Rattle.pg_dict.specs.Inside.LentWords.{lent_word};
ghost use Rattle.pg_select.specs.CountedPositions.{counts_as as counts_as_of};
ghost use Rattle.pg_select.specs.Sums.{totals as totals_of_words};
ghost use Rattle.pg_select.specs.Inside.SumSteps.{marks_in, with_marks, HasRoomFor, TookRoomFor};
ghost use Rattle.pg_driver.specs.Inside.counting.Counting.{IsBounded};
ghost use Rattle.pg_driver.specs.Inside.counting.OpenSigns.{has_care as has_care_of, is_open_first, sign_count, start_of, takes_part};

use crate::counting::positions::{counts_as, has_care};
use pg_dict::{Dictionary, WordRef};
use pg_dots::{OpenDots, PositionSet};
use pg_select::marks::{add_mark, mark_at, no_totals, positions};
use pg_select::{Engine, WordState};
use pg_translate::Table;
use pg_types::{Mark, Totals};
use std::alloc::{AllocError, Global};

/// The open positions of a level, and the totals. Both are carried from pass to pass, and from
/// level to level.
#[derive(Drop)]
pub struct OpenLevel {
    /// Which dots are closed at each sign of the words, which are numbered through.
    pub dots: OpenDots,
    /// The signs that count at no level: each that is out of reach or has no care.
    pub never: PositionSet,
    /// The totals by the patterns as they are now.
    pub totals: Totals,
}

/// Opens a position where it counts at a level by this status.
fn open_by_status(level: u8, sign: usize, mark: Mark, dots: &mut OpenDots)
    requires within { sign < position_count dots.old }
    requires none { dots.old.reached ≡ 0 }
    ensures size { position_count dots.new ≡ position_count dots.old }
    ensures none { dots.new.reached ≡ 0 }
    ensures closed { (d s : ℕ) → s < position_count dots.old → is_closed dots.new d s
        ≡ (not (s == sign && is_some (counts_as_of level mark)) && is_closed dots.old d s) }
{
    if counts_as(level, mark).is_some() {
        dots.open(sign);
    }
}

/// If a position of this status has care, takes it out of those that count at no level.
fn note_care(sign: usize, mark: Mark, never: &mut PositionSet)
    requires within { sign < positions_room never.old }
    ensures room { positions_room never.new ≡ positions_room never.old }
    ensures among { (s : ℕ) → is_among never.new s
        ≡ (not (s == sign && has_care_of mark) && is_among never.old s) }
{
    if has_care(mark) {
        never.remove(sign);
    }
}

/// Opens the positions of a word that count at a level, and adds all positions in reach to the
/// totals. Those with care are taken out of the positions that count at no level. `before` signs of
/// the dictionary stand before those of the word. What `found` holds does not matter.
fn open_word<E: Engine>(
    engine: &E,
    table: &Table,
    level: u8,
    before: usize,
    w: &WordRef<'_>,
    found: &mut WordState,
    opened: &mut OpenLevel,
)
    requires word { IsWord (lent_word w.now) }
    requires signs { SignsWithin (E.meaning engine.now).signs w.now.signs.now }
    requires room { HasRoomFor opened.old.totals (letter_count (lent_word w.now)) }
    requires within { before + length w.now.signs.now ≤ position_count opened.old.dots }
    requires few { position_count opened.old.dots < positions_limit }
    requires none { opened.old.dots.reached ≡ 0 }
    requires set_size { positions_room opened.old.never ≡ position_count opened.old.dots }
    ensures size { position_count opened.new.dots ≡ position_count opened.old.dots }
    ensures none { opened.new.dots.reached ≡ 0 }
    ensures closed { (d s : ℕ) → s < position_count opened.old.dots → is_closed opened.new.dots d s
        ≡ (not (is_open_first table.now level
        (E.meaning engine.now).patterns (lent_word w.now)
        (s - before)) && is_closed opened.old.dots d s) }
    ensures set_size { positions_room opened.new.never ≡ position_count opened.old.dots }
    ensures never { (s : ℕ) → s < position_count opened.old.dots → is_among opened.new.never s
        ≡ (not (takes_part table.now (lent_word w.now) (s - before))
        && is_among opened.old.never s) }
    ensures totals { opened.new.totals
        ≡ with_marks opened.old.totals
        (marks_in table.now (E.meaning engine.now).patterns
        (lent_word w.now)) }
    ensures took { TookRoomFor opened.old.totals opened.new.totals
        (letter_count (lent_word w.now)) }
    ensures reached { length (positions_of table.now.left table.now.right
        (length w.now.signs.now)) ≤ letter_count (lent_word w.now) }
{
    let Some((first, end)) = positions(table, w) else {
        return;
    };
    engine.hyphenate(*w, found);
    'positions: for p in first..end {
        let mark = mark_at(w, found, p);
        opened.totals = add_mark(opened.totals, mark, w.weights[p]);
        open_by_status(level, before + p, mark, &mut opened.dots);
        note_care(before + p, mark, &mut opened.never);
    }
}

/// The positions that count at a level's start are open, and each dot of the others is closed. The
/// totals stand beside them, and the positions that count at no level. Each word is hyphenated
/// once.
pub fn open_level<E: Engine>(
    engine: &E,
    dictionary: &Dictionary,
    table: &Table,
    level: u8,
    alloc: Global,
) -> Result<OpenLevel, AllocError>
    requires { SignsAtMost (E.meaning engine.now).signs dictionary.now }
    ensures size { IfOk result (λ opened. sign_count dictionary.now ≤ position_count opened.dots) }
    ensures closed { IfOk result
        (λ opened. (d n p : ℕ) (w : Word) → slice_get dictionary.now n ≡ Some w
        → p < length w.signs → is_closed opened.dots d (start_of dictionary.now n + p)
        ≡ not (is_open_first table.now level (E.meaning engine.now).patterns w p)) }
    ensures set_size { IfOk result
        (λ opened. positions_room opened.never ≡ position_count opened.dots) }
    ensures never { IfOk result (λ opened. (n p : ℕ) (w : Word)
        → slice_get dictionary.now n ≡ Some w → p < length w.signs
        → is_among opened.never (start_of dictionary.now n + p)
        ≡ not (takes_part table.now w p)) }
    ensures totals { IfOk result (λ opened. opened.totals
        ≡ totals_of_words table.now dictionary.now (E.meaning engine.now).patterns) }
    ensures bounded { OnOk result (IsBounded table.now dictionary.now) }
{
    let count = dictionary.len();
    let signs = dictionary.all_signs();
    let dots = OpenDots::all_closed(alloc, signs.len())?;
    let never = dots.all_positions(alloc)?;
    let mut found = WordState::new();
    let mut opened = OpenLevel {
        dots,
        never,
        totals: no_totals(),
    };
    let mut before = 0;
    'words: for i in 0..count {
        let w = dictionary.word(i);
        open_word(engine, table, level, before, &w, &mut found, &mut opened);
        before += w.signs.len();
    }
    Ok(opened)
}
