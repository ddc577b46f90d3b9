//! A pass over the open positions of its level: the counting of its windows, and the closing of
//! dots after its choices.
ghost use Rattle.std.specs.Prelude.{◌≡◌, ◌≢◌, ◌≤◌, ◌<◌, not, if◌then◌else◌, ℕ, Bool, length, fold, sum_by, All};
ghost use Rattle.std.specs.List.{flat_map};
ghost use Rattle.pg_dots.specs.Inside.Dots.{is_closed, position_count};
ghost use Rattle.pg_types.specs.declared.limits.TheConstants.{FILE_MAX};
ghost use Rattle.pg_dict.specs.Inside.SoundWords.{IsWord, letter_count};
ghost use Rattle.pg_dict.specs.Inside.Store.{all_signs};
ghost use Rattle.pg_select.specs.Statuses.{is_odd};
ghost use Rattle.pg_select.specs.Inside.engine.Meanings.{with_position};
ghost use Rattle.pg_starts.specs.Inside.StartCountings.{AreCounting, counts_in, windows_in};
ghost use Rattle.pg_driver.specs.Inside.counting.Counting.{AreNumbersFor, HasRoom};
ghost use Rattle.pg_driver.specs.Inside.level.States.{IsPass};
ghost use Rattle.pg_driver.specs.Inside.counting.OpenSigns.{ClosesBy, HasFate, closed_by, open_at, open_word_positions, open_signs, position_from, sign_count};
ghost use Rattle.pg_driver.specs.Inside.counting.OpenPositions.{counted_of};

use pg_dict::Dictionary;
use pg_dots::OpenDots;
use pg_select::{Choice, Pass};
use pg_starts::StartCounts;

/// Whether a position with or without a hyphen counts as good at a level, where it counts.
pub fn is_good(level: u8, hyphen: bool) -> bool
    ensures { result ≡ (if is_odd level then hyphen else not hyphen) }
{
    hyphen == (level % 2 == 1)
}

/// Counts the window at a sign at which the dot of the pass is open, where it fits in the sign's
/// word. No word is looked up.
#[inline(always)]
fn count_sign(dictionary: &Dictionary, pass: Pass, sign: usize, counts: &mut StartCounts)
    requires ranges { IsPass pass }
    requires words { All IsWord dictionary.now }
    requires letters { sum_by letter_count dictionary.now ≤ FILE_MAX }
    requires within { sign < sign_count dictionary.now }
    requires counting { AreCounting (all_signs dictionary.now) counts.old }
    requires numbers { AreNumbersFor dictionary.now pass.len (open_at pass.dot sign)
        counts.old.numbers }
    requires room { HasRoom (counts_in (all_signs dictionary.now) counts.old) 1 }
    ensures numbers { counts.new.numbers ≡ counts.old.numbers }
    ensures counting { AreCounting (all_signs dictionary.now) counts.new }
    ensures counts { counts_in (all_signs dictionary.now) counts.new
        ≡ fold with_position (counts_in (all_signs dictionary.now) counts.old)
        (counted_of pass dictionary.now (position_from 0 dictionary.now sign)) }
{
    if !dictionary.fits_around(sign, pass.dot, pass.len) {
        return;
    }
    let sites = dictionary.all_sites();
    let site = sites[sign];
    let signs = dictionary.all_signs();
    let good = is_good(pass.level, site.has_hyphen());
    let weights = dictionary.all_weights();
    let start = sign - pass.dot as usize;
    counts.add(signs, start, good, u64::from(weights[sign]));
}

/// Counts, in a pass that has begun, the windows at the positions where its dot is open. It takes
/// no memory.
#[inline(never)]
pub fn count_open(dictionary: &Dictionary, pass: Pass, dots: &OpenDots, counts: &mut StartCounts)
    requires ranges { IsPass pass }
    requires words { All IsWord dictionary.now }
    requires letters { sum_by letter_count dictionary.now ≤ FILE_MAX }
    requires reached { pass.dot < dots.now.reached }
    requires size { sign_count dictionary.now ≤ position_count dots.now }
    requires counting { AreCounting (all_signs dictionary.now) counts.old }
    requires numbers { AreNumbersFor dictionary.now pass.len
        (λ d s. not (is_closed dots.now d s)) counts.old.numbers }
    requires room { HasRoom (counts_in (all_signs dictionary.now) counts.old)
        (length (open_signs (is_closed dots.now pass.dot) 0 (sign_count dictionary.now))) }
    ensures numbers { counts.new.numbers ≡ counts.old.numbers }
    ensures counting { AreCounting (all_signs dictionary.now) counts.new }
    ensures counts { counts_in (all_signs dictionary.now) counts.new
        ≡ fold with_position (counts_in (all_signs dictionary.now) counts.old)
        (flat_map (counted_of pass dictionary.now)
        (open_word_positions (is_closed dots.now pass.dot) dictionary.now)) }
    ensures room { HasRoom (counts_in (all_signs dictionary.now) counts.new) 0 }
{
    let signs = dictionary.all_signs();
    let end = signs.len();
    let mut walk = dots.walk(pass.dot);
    let mut next = dots.next_open(pass.dot, &mut walk);
    'signs: while next < end {
        count_sign(dictionary, pass, next, counts);
        next = dots.next_open(pass.dot, &mut walk);
    }
}

/// What became of the window at a sign at which the dot of the pass is open; `None` where it does
/// not fit.
#[inline(always)]
fn fate_of(
    dictionary: &Dictionary,
    pass: Pass,
    sign: usize,
    counts: &StartCounts,
    fates: &[Choice],
) -> Option<Choice>
    requires ranges { IsPass pass }
    requires within { sign < sign_count dictionary.now }
    requires counting { AreCounting (all_signs dictionary.now) counts.now }
    requires numbers { AreNumbersFor dictionary.now pass.len (open_at pass.dot sign)
        counts.now.numbers }
    requires fates { length fates.now ≡ length (windows_in (all_signs dictionary.now) counts.now) }
    ensures { HasFate pass dictionary.now
        (windows_in (all_signs dictionary.now) counts.now) fates.now sign result }
{
    if !dictionary.fits_around(sign, pass.dot, pass.len) {
        return None;
    }
    let signs = dictionary.all_signs();
    let number = counts.number(signs, sign - pass.dot as usize);
    Some(fates[number as usize])
}

/// Closes dots at a position at which the dot of a pass is open, by what became of its window.
/// Where no window fits, no longer window with the dot fits either. So the dot is closed.
fn close_at(dots: &mut OpenDots, dot: u8, sign: usize, fate: Option<Choice>)
    requires dot { dot < dots.old.reached }
    requires within { sign < position_count dots.old }
    ensures size { position_count dots.new ≡ position_count dots.old }
    ensures reached { dots.new.reached ≡ dots.old.reached }
    ensures here { (d : ℕ) → is_closed dots.new d sign
        ≡ closed_by (λ c. is_closed dots.old c sign) dot fate d }
    ensures others { (d s : ℕ) → s < position_count dots.old → s ≢ sign
        → is_closed dots.new d s ≡ is_closed dots.old d s }
{
    match fate {
        Some(Choice::Chosen) => dots.close_all(sign),
        Some(Choice::Left) => {}
        Some(Choice::Hopeless) | None => dots.close(dot, sign),
    }
}

/// Closes dots after the choices of a pass, by what became of the windows of the positions at which
/// its dot is open. It takes no memory.
pub fn close_dots(
    dictionary: &Dictionary,
    pass: Pass,
    counts: &StartCounts,
    fates: &[Choice],
    dots: &mut OpenDots,
)
    requires ranges { IsPass pass }
    requires dot { pass.dot < dots.old.reached }
    requires size { sign_count dictionary.now ≤ position_count dots.old }
    requires counting { AreCounting (all_signs dictionary.now) counts.now }
    requires numbers { AreNumbersFor dictionary.now pass.len
        (λ d s. not (is_closed dots.old d s)) counts.now.numbers }
    requires fates { length fates.now ≡ length (windows_in (all_signs dictionary.now) counts.now) }
    ensures size { position_count dots.new ≡ position_count dots.old }
    ensures reached { dots.new.reached ≡ dots.old.reached }
    ensures closed { (after : ℕ → ℕ → Bool) → ClosesBy after pass dictionary.now
        (windows_in (all_signs dictionary.now) counts.now) fates.now (is_closed dots.old)
        → (d s : ℕ) → s < sign_count dictionary.now → is_closed dots.new d s ≡ after d s }
{
    let signs = dictionary.all_signs();
    let end = signs.len();
    let mut walk = dots.walk(pass.dot);
    let mut next = dots.next_open(pass.dot, &mut walk);
    'signs: while next < end {
        let fate = fate_of(dictionary, pass, next, counts, fates);
        close_at(dots, pass.dot, next, fate);
        next = dots.next_open(pass.dot, &mut walk);
    }
}
