//! The positions that count by their status and have a value above the level. They are counted like
//! others, but no choice of the level changes their value. So what is chosen of them changes no
//! total.
ghost use Rattle.std.specs.Prelude.{◌≡◌, ◌≤◌, ◌<◌, ◌+◌, ◌^◌, ◌++◌, ◌∷◌, [], nat_lt, false, true, if◌then◌else◌, None, length, slice_get, slice_index, slice_index_or, All, OnOk, is_some};
ghost use Rattle.std.specs.Option.{option_map_or};
ghost use Rattle.pg_types.specs.declared.limits.TheConstants.{FILE_MAX, WORD_LETTERS_MAX, WEIGHT_MAX};
ghost use Rattle.pg_types.specs.declared.parameters.LevelParams.{LevelParams};
ghost use Rattle.pg_types.specs.Inside.counting.Counts.{Counts};
ghost use Rattle.pg_types.specs.Inside.counting.NumberedWindows.{Windows};
ghost use Rattle.pg_dict.specs.Inside.SoundWords.{IsWord};
ghost use Rattle.pg_dict.specs.Inside.LentWords.{lent_word};
ghost use Rattle.pg_patterns.specs.Values.{Patterns};
ghost use Rattle.pg_select.specs.CountedPositions.{counts_as as counts_as_of};
ghost use Rattle.pg_select.specs.Inside.laws.AboveLevel.{counts_above};
ghost use Rattle.pg_select.specs.Inside.words.Positions.{HasValues};
ghost use Rattle.pg_select.specs.Statuses.{status};
ghost use Rattle.pg_driver.specs.declared.pass_windows.TheConstants.{NO_NUMBER};
ghost use Rattle.pg_driver.specs.Inside.counting.OpenLevels.{listed_in, open_as};
ghost use Rattle.pg_driver.specs.Inside.counting.OpenPositions.{IsInWord};
ghost use Rattle.pg_driver.specs.Inside.level.PassWindows.{AreFates, HaveNumbers, IsNumbered, is_counted_at};
ghost use Rattle.pg_driver.specs.Inside.choices.Fates.{chooses};
ghost use Rattle.pg_driver.specs.Inside.counting.WordLevels.{TookChosen, chosen_weights, with_chosen};

use crate::counting::open_passes::is_good;
use crate::counting::positions::counts_as;
use crate::pass_windows::WordPosition;
use pg_dict::{Dictionary, WordRef};
use pg_select::marks::{mark_at, positions};
use pg_select::{Choice, Pass, WordState};
use pg_translate::Table;
use std::alloc::AllocError;

/// The weights of positions whose windows were chosen and whose values stay: of the good ones, and
/// of the bad ones.
#[derive(Clone, Copy)]
pub struct ChosenWeights {
    /// The sum of the good weights.
    pub good: u64,
    /// The sum of the bad weights.
    pub bad: u64,
}

/// Whether position `p` of a word counts by its status, as `good` says, and its value is above the
/// level.
pub fn is_above(level: u8, found: &WordState, p: usize, good: Option<bool>) -> bool
    requires { p < WORD_LETTERS_MAX + 2 }
    ensures { result ≡ is_some
        (if nat_lt level (slice_index found.now.values p) then good else None) }
{
    found.value(p) > level && good.is_some()
}

/// Lists position `p` of a word, where it counts at a level and the value that was found for it is
/// above the level.
fn list_at(
    level: u8,
    word: u32,
    w: &WordRef<'_>,
    found: &WordState,
    p: u8,
    above: &mut Vec<WordPosition>,
) -> Result<(), AllocError>
    requires within { p < length w.now.signs.now }
    requires short { length w.now.signs.now ≤ WORD_LETTERS_MAX + 2 }
    ensures { OnOk result (above.new.items ≡ above.old.items ++ open_as word p
        (if nat_lt level (slice_index found.now.values p) then counts_as_of level
        (status (slice_index_or w.now.hyphens.now p false) (slice_index_or w.now.cares.now p true)
        (slice_index found.now.values p)) else None)) }
{
    let at = usize::from(p);
    let good = counts_as(level, mark_at(w, found, at));
    if is_above(level, found, at, good) {
        above.push(WordPosition { word, at: p })?;
    }
    Ok(())
}

/// Lists the positions of a word in reach that count at a level and have a value above it, by the
/// values that were found.
pub fn list_above(
    table: &Table,
    level: u8,
    word: u32,
    w: &WordRef<'_>,
    found: &WordState,
    above: &mut Vec<WordPosition>,
) -> Result<(), AllocError>
    requires { IsWord (lent_word w.now) }
    ensures { (P : Patterns) → HasValues P w.now.signs.now found.now.values
        → OnOk result (above.new.items
        ≡ above.old.items ++ listed_in table.now
        (counts_above level P) word (lent_word w.now)) }
{
    let Some((first, end)) = positions(table, w) else {
        return Ok(());
    };
    'positions: for p in first..end {
        list_at(level, word, w, found, p as u8, above)?;
    }
    Ok(())
}

/// Whether the window with this number was chosen. It is false for `NO_NUMBER`.
fn is_chosen_by(fates: &[Choice], number: u32) -> bool
    ensures { result ≡ option_map_or chooses (slice_get fates.now number) false }
{
    matches!(fates.get(number as usize).copied(), Some(Choice::Chosen))
}

/// The sums with the weight of one more listed position added, where its window of a pass was
/// chosen.
fn add_kept(
    dictionary: &Dictionary,
    pass: Pass,
    fates: &[Choice],
    number: u32,
    position: WordPosition,
    kept: ChosenWeights,
) -> ChosenWeights
    requires placed { IsInWord dictionary.now position }
    requires few { length fates.now ≤ NO_NUMBER }
    requires room { kept.good + kept.bad + WEIGHT_MAX < 2 ^ 64 }
    ensures value { (params : LevelParams) (counts : Counts) (ws : Windows)
        → AreFates params counts ws fates.now
        → IsNumbered pass (is_counted_at pass counts) dictionary.now ws position number
        → result ≡ with_chosen kept
        (chosen_weights params pass counts dictionary.now (position ∷ [])) }
    ensures took { TookChosen kept result 1 }
{
    let w = dictionary.word(position.word as usize);
    let p = usize::from(position.at);
    if !is_chosen_by(fates, number) {
        return kept;
    }
    let weight = u64::from(w.weights[p]);
    if is_good(pass.level, w.hyphens[p]) {
        ChosenWeights {
            good: kept.good + weight,
            ..kept
        }
    } else {
        ChosenWeights {
            bad: kept.bad + weight,
            ..kept
        }
    }
}

/// The weights of the listed positions whose windows of a pass were chosen, by the numbers of these
/// windows. It takes no memory.
pub fn kept_above(
    dictionary: &Dictionary,
    pass: Pass,
    fates: &[Choice],
    numbers: &[u32],
    above: &[WordPosition],
) -> ChosenWeights
    requires placed { All (IsInWord dictionary.now) above.now }
    requires above { length above.now ≤ FILE_MAX }
    requires fates { length fates.now ≤ NO_NUMBER }
    requires size { length numbers.now ≡ length above.now }
    ensures { (params : LevelParams) (counts : Counts) (ws : Windows)
        → AreFates params counts ws fates.now
        → HaveNumbers pass (is_counted_at pass counts) dictionary.now ws above.now numbers.now
        → result ≡ chosen_weights params pass counts dictionary.now above.now }
{
    let mut kept = ChosenWeights { good: 0, bad: 0 };
    'positions: for k in 0..above.len() {
        kept = add_kept(dictionary, pass, fates, numbers[k], above[k], kept);
    }
    kept
}
