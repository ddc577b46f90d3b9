//! A bound for each sign: no base below it is free for a family with the sign.
ghost use Rattle.std.specs.Prelude.{◌≡◌, ◌≢◌, ℕ, ◌+◌, ◌<◌, ◌≤◌, false, length, slice_index, IfOk, if◌then◌else◌};
ghost use Rattle.pg_cells.specs.declared.store.cell.TheConstants.{CELLS_END, SIGN_COUNT};
ghost use Rattle.pg_cells.specs.Inside.store.Bounds.{IsBelowBounds};

use pg_types::Sign;
use std::alloc::{AllocError, Global};

/// A bound for each of `signs` signs, and for 0.
pub fn no_bounds(alloc: Global, signs: u16) -> Result<Vec<u32>, AllocError>
    ensures { IfOk result (λ lows. length lows.items ≡ signs + 1) }
{
    let mut lows = Vec::new(alloc);
    'grow: while lows.len() < signs as usize + 1 {
        lows.push(0)?;
    }
    Ok(lows)
}

/// The bound of a sign. `freed` and `dropped` are the least cell and the least base that were given
/// up since the bounds were lowered.
pub fn bound_of(lows: &[u32], freed: usize, dropped: usize, sign: Sign) -> usize
    ensures { (b : ℕ) → b < result → IsBelowBounds lows.now freed dropped sign b }
{
    let low = lows.get(sign as usize).copied().unwrap_or(0);
    (low as usize)
        .min(dropped)
        .min(freed.saturating_sub(sign as usize))
}

// Lowers each bound as far as the cells and bases that were given up require.
fn lower(lows: &mut [u32], freed: usize, dropped: usize)
    requires { length lows.old ≤ SIGN_COUNT }
    ensures { (s b : ℕ) → b < slice_index lows.new s → IsBelowBounds lows.old freed dropped s b }
{
    if freed == usize::MAX && dropped == usize::MAX {
        return;
    }
    let cell = freed.min(u32::MAX as usize) as u32;
    let base = dropped.min(u32::MAX as usize) as u32;
    for sign in 0..lows.len() {
        lows[sign] = lows[sign].min(base).min(cell.saturating_sub(sign as u32));
    }
}

/// Sets the bound of a sign, where it has one, and lowers the others as far as the cells and bases
/// that were given up require.
pub fn raise(lows: &mut [u32], freed: usize, dropped: usize, sign: Sign, low: usize)
    requires few { length lows.old ≤ SIGN_COUNT }
    requires low { low < CELLS_END }
    ensures here { slice_index lows.new sign ≤ low }
    ensures there { (s b : ℕ) → s ≢ sign → b < slice_index lows.new s →
        IsBelowBounds lows.old freed dropped s b }
{
    lower(lows, freed, dropped);
    if (sign as usize) < lows.len() {
        lows[sign as usize] = low as u32;
    }
}

/// The least base given up so far. `base` counts as given up unless `is_base`.
pub fn least_dropped(dropped: usize, base: usize, is_base: bool) -> usize
    ensures least { result ≤ dropped }
    ensures base { is_base ≡ false → result ≤ base }
{
    if is_base { dropped } else { dropped.min(base) }
}

/// The base of the family that was placed last, or 0 where a base is given up now.
pub fn still_placed(placed: usize, is_base: bool) -> usize
    ensures { result ≡ (if is_base then placed else 0) }
{
    if is_base { placed } else { 0 }
}
