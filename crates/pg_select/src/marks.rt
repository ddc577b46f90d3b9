//! The marks of a word's positions, and the totals with them.
ghost use Rattle.std.specs.Prelude.{ℕ, ◌≡◌, ◌<◌, ◌≤◌, ◌+◌, ◌-◌, ◌^◌, [], true, false, length, slice_index, slice_index_or, IfSome, IfNone};
ghost use Rattle.std.specs.List.{range_with_len};
ghost use Rattle.pg_types.specs.declared.limits.TheConstants.{WORD_LETTERS_MAX};
ghost use Rattle.pg_translate.specs.Reach.{positions as positions_of};
ghost use Rattle.pg_dict.specs.Inside.SoundWords.{IsWord, letter_count};
ghost use Rattle.pg_dict.specs.Inside.LentWords.{lent_word};
ghost use Rattle.pg_select.specs.Statuses.{status as status_of, status_with};
ghost use Rattle.pg_select.specs.Sums.{marks_by};
ghost use Rattle.pg_select.specs.Inside.SumSteps.{with_mark, with_marks, sum_of, HasRoomFor, TookRoomFor};

use crate::choice::status;
use crate::word_state::WordState;
use pg_dict::WordRef;
use pg_translate::Table;
use pg_types::{Mark, Totals, Weight};

/// The totals over no position.
pub fn no_totals() -> Totals
    ensures { result ≡ record { good = 0; bad = 0; missed = 0 } }
{
    Totals {
        good: 0,
        bad: 0,
        missed: 0,
    }
}

/// The first position in reach of a word, and the position behind the last one; none where the word
/// takes no part.
pub fn positions(table: &Table, w: &WordRef<'_>) -> Option<(usize, usize)>
    requires { IsWord (lent_word w.now) }
    ensures none { IfNone result
        (positions_of table.now.left table.now.right (length w.now.signs.now) ≡ []) }
    ensures some { IfSome result
        (λ r. positions_of table.now.left table.now.right (length w.now.signs.now)
        ≡ range_with_len r.0 (r.1 - r.0)) }
    ensures some_first { IfSome result (λ r. r.0 < r.1) }
    ensures within { IfSome result (λ r. r.1 ≤ length w.now.signs.now) }
    ensures few { IfSome result (λ r. r.1 - r.0 ≤ letter_count (lent_word w.now)) }
{
    let (first, last) = table.reach(w.signs.len())?;
    Some((first, last + 1))
}

/// The status of position `p` of a word, by the value that was found for it.
pub fn mark_at(w: &WordRef<'_>, found: &WordState, p: usize) -> Mark
    requires within { p < length w.now.signs.now }
    requires short { length w.now.signs.now ≤ WORD_LETTERS_MAX + 2 }
    ensures { result ≡ status_of (slice_index_or w.now.hyphens.now p false)
        (slice_index_or w.now.cares.now p true)
        (slice_index found.now.values p) }
{
    status(w.hyphens[p], w.cares[p], found.value(p))
}

/// The totals with a position of this status and weight more.
pub fn add_mark(sums: Totals, mark: Mark, weight: Weight) -> Totals
    requires { sum_of sums + weight < 2 ^ 64 }
    ensures { result ≡ with_mark sums mark weight }
{
    let weight = u64::from(weight);
    let Totals { good, bad, missed } = sums;
    match mark {
        Mark::Found => Totals {
            good: good + weight,
            bad,
            missed,
        },
        Mark::Error => Totals {
            good,
            bad: bad + weight,
            missed,
        },
        Mark::Missed => Totals {
            good,
            bad,
            missed: missed + weight,
        },
        Mark::Nothing | Mark::DontCare => sums,
    }
}

/// The totals with the positions of a word in reach more, by the values that were found for them.
/// It takes no memory.
pub fn add_marks(table: &Table, w: &WordRef<'_>, found: &WordState, sums: Totals) -> Totals
    requires word { IsWord (lent_word w.now) }
    requires room { HasRoomFor sums (letter_count (lent_word w.now)) }
    ensures took { TookRoomFor sums result (letter_count (lent_word w.now)) }
    ensures value { (value : ℕ → ℕ) → ((p : ℕ) → p < length w.now.signs.now
        → slice_index found.now.values p ≡ value p)
        → result ≡ with_marks sums (marks_by table.now
        (λ p. status_with (lent_word w.now) p (value p)) (lent_word w.now)) }
{
    let Some((first, end)) = positions(table, w) else {
        return sums;
    };
    let mut sums = sums;
    'positions: for p in first..end {
        sums = add_mark(sums, mark_at(w, found, p), w.weights[p]);
    }
    sums
}
