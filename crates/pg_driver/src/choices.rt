//! The choice among the candidates of a pass.
ghost use Rattle.std.specs.Prelude.{◌≡◌, ◌≤◌, ◌<◌, ◌+◌, ◌∷◌, [], ℕ, List, length, map, IfOk, OnOk};
ghost use Rattle.pg_types.specs.declared.limits.TheConstants.{FILE_MAX};
ghost use Rattle.pg_types.specs.Inside.Ranges.{IsLevel};
ghost use Rattle.pg_types.specs.Inside.Signs.{SignsWithin};
ghost use Rattle.pg_types.specs.Inside.counting.NumberedWindows.{AreInOrder, HasNumber};
ghost use Rattle.pg_select.specs.Inside.engine.EngineCalls.{CanEnter};
ghost use Rattle.pg_starts.specs.Inside.StartCountings.{AreCounting, counts_in, windows_in};
ghost use Rattle.pg_driver.specs.Inside.choices.LookAhead.{FitCursors};
ghost use Rattle.pg_select.specs.Inside.Choices.{choice};
ghost use Rattle.pg_driver.specs.Inside.level.PassWindows.{AreFates, IsCandidate};
ghost use Rattle.pg_driver.specs.Inside.counting.Counting.{HasRoom};
ghost use Rattle.pg_types.specs.Inside.Limits.{sums_limit};
ghost use Rattle.pg_driver.specs.Inside.choices.Choosing.{with_candidates, no_choices, candidate_of, HasChosen};

mod look_ahead;

use crate::choices::look_ahead::look_ahead;
pub use look_ahead::SeenCandidate;
use pg_select::{Choice, Engine};
use pg_starts::StartCounts;
use pg_types::{LevelParams, Sign};
use std::alloc::AllocError;

/// What became of the candidates of a pass.
#[derive(Clone, Copy)]
pub struct Choices {
    /// How many there were.
    pub candidates: u64,
    /// How many were chosen.
    pub chosen: u64,
    /// How many were hopeless.
    pub hopeless: u64,
    /// The sum of the good weights of the chosen.
    pub good: u64,
    /// The sum of the bad weights of the chosen.
    pub bad: u64,
}

/// Chooses the candidate with the number, makes it hopeless or leaves it. Its sums are read only
/// where it is chosen. Only the contract reads `params`.
#[inline(always)]
fn choose_one<E: Engine>(
    engine: &mut E,
    signs: &[Sign],
    counts: &StartCounts,
    params: &LevelParams,
    number: u32,
    seen: &SeenCandidate,
    choices: &mut Choices,
) -> Result<(), AllocError>
    requires level { IsLevel params.now }
    requires counting { AreCounting signs.now counts.now }
    requires window { HasNumber (windows_in signs.now counts.now) seen.now.window number }
    requires enter { CanEnter (E.meaning engine.old) seen.now.window }
    requires fate { (u : List ℕ) (sums : ℕ × ℕ) → IsCandidate signs.now counts.now number u sums
        → seen.now.fate ≡ choice params.now sums.0 sums.1 }
    requires there { (u : List ℕ) × (sums : ℕ × ℕ)
        × IsCandidate signs.now counts.now number u sums }
    requires sums { (u : List ℕ) (sums : ℕ × ℕ) → IsCandidate signs.now counts.now number u sums
        → (choices.old.good + sums.0 < sums_limit) × (choices.old.bad + sums.1 < sums_limit) }
    requires few { choices.old.candidates < FILE_MAX }
    requires sound { choices.old.chosen + choices.old.hopeless ≤ choices.old.candidates }
    ensures ok { (u : List ℕ) (sums : ℕ × ℕ) → IsCandidate signs.now counts.now number u sums
        → OnOk result (HasChosen params.now
        (record { window = u; good = sums.0; bad = sums.1 } ∷ [])
        (E.meaning engine.old) (E.meaning engine.new)) }
    ensures choices { (u : List ℕ) (sums : ℕ × ℕ) → IsCandidate signs.now counts.now number u sums
        → OnOk result (choices.new ≡ with_candidates params.now choices.old
        (record { window = u; good = sums.0; bad = sums.1 } ∷ [])) }
    ensures sound { OnOk result
        (choices.new.chosen + choices.new.hopeless ≤ choices.new.candidates) }
    ensures signs { (E.meaning engine.new).signs ≡ (E.meaning engine.old).signs }
{
    choices.candidates += 1;
    match seen.fate {
        Choice::Chosen => {
            let (good, bad) = counts.sums(signs, number).unwrap_or((0, 0));
            engine.choose(&seen.window)?;
            choices.chosen += 1;
            choices.good += good;
            choices.bad += bad;
            Ok(())
        }
        Choice::Hopeless => {
            engine.give_up(&seen.window)?;
            choices.hopeless += 1;
            Ok(())
        }
        Choice::Left => Ok(()),
    }
}

/// Chooses, gives up or leaves each candidate of a pass, in the order of signs, as was decided for
/// its number. Several at a time are read into `seen`, whose memory stays for later passes.
pub fn choose_all<E: Engine>(
    engine: &mut E,
    signs: &[Sign],
    counts: &StartCounts,
    params: &LevelParams,
    fates: &[Choice],
    order: &[u32],
    seen: &mut Vec<SeenCandidate>,
) -> Result<Choices, AllocError>
    requires level { IsLevel params.now }
    requires counting { AreCounting signs.now counts.now }
    requires cursors { FitCursors (windows_in signs.now counts.now) order.now }
    requires enter { (u : List ℕ) (n : ℕ) (sums : ℕ × ℕ)
        → IsCandidate signs.now counts.now n u sums
        → (length u ≡ (E.meaning engine.old).pass.len)
        × SignsWithin (E.meaning engine.old).signs u }
    requires room { HasRoom (counts_in signs.now counts.now) 0 }
    requires fates { AreFates params.now (counts_in signs.now counts.now)
        (windows_in signs.now counts.now) fates.now }
    requires order { AreInOrder (windows_in signs.now counts.now)
        (counts_in signs.now counts.now) order.now }
    ensures ok { OnOk result (HasChosen params.now
        (map candidate_of (counts_in signs.now counts.now))
        (E.meaning engine.old) (E.meaning engine.new)) }
    ensures choices { IfOk result (λ choices. choices
        ≡ with_candidates params.now no_choices
        (map candidate_of (counts_in signs.now counts.now))) }
    ensures sound { IfOk result
        (λ choices. choices.chosen + choices.hopeless ≤ choices.candidates) }
    ensures few { IfOk result (λ choices. choices.candidates ≤ FILE_MAX) }
    ensures signs { (E.meaning engine.new).signs ≡ (E.meaning engine.old).signs }
{
    let mut choices = Choices {
        candidates: 0,
        chosen: 0,
        hopeless: 0,
        good: 0,
        bad: 0,
    };
    seen.clear();
    let mut from = 0;
    'candidates: for k in 0..order.len() {
        from = look_ahead(signs, counts, fates, order, k, from, seen)?;
        choose_one(
            engine,
            signs,
            counts,
            params,
            order[k],
            &seen[k - from],
            &mut choices,
        )?;
    }
    Ok(choices)
}
