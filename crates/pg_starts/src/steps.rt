//! From the numbers of windows to those of windows that are longer by a sign.
ghost use Rattle.std.specs.Prelude.{◌≡◌, ◌≤◌, ◌<◌, ◌+◌, ◌^◌, ℕ, false, true, length, slice_index, IfOk, OnErr};
ghost use Rattle.std.specs.declared.cmp.Ordering.{Ordering};
ghost use Rattle.pg_dots.specs.Inside.Starts.{starts_room};
ghost use Rattle.pg_starts.specs.Inside.Starts.{has_window, part_behind, window_order};
ghost use Rattle.pg_starts.specs.Inside.Orders.{AreKeys, AreNumbers, AreOrdered, AreRanks, then_part};
ghost use Rattle.pg_starts.specs.Inside.Cells.{ArePacked};

use crate::cells::{PackedKeys, place};
use crate::keys::{keys_of, part_of};
use pg_dots::StartSet;
use pg_types::Sign;
use std::alloc::{AllocError, Global};

/// Gives each start the index in its cell, and each index a start.
fn rank(
    signs: &[Sign],
    starts: &StartSet,
    len: usize,
    at: usize,
    part: u8,
    keys: &[u64],
    packed: &PackedKeys,
    numbers: &mut [u32],
    firsts: &mut [u32],
)
    requires size { length numbers.old ≡ length signs.now }
    requires firsts_size { length firsts.old ≡ length keys.now }
    requires at { at < len }
    requires few { length signs.now < 2 ^ 32 }
    requires room { length signs.now ≤ starts_room starts.now }
    requires are_keys { AreKeys (has_window signs.now starts.now len)
        (part_behind signs.now at part) numbers.old keys.now }
    requires are_packed { ArePacked keys.now (length keys.now)
        packed.now.bases.items packed.now.cells.items }
    ensures { AreRanks (has_window signs.now starts.now len) (part_behind signs.now at part)
        numbers.old keys.now numbers.new firsts.new }
{
    let end = (signs.len() + 1).saturating_sub(len);
    let mut walk = starts.walk();
    let mut next = starts.next(&mut walk);
    'starts: while next < end {
        let follows = part_of(signs[next + at], part);
        let cell = packed.bases[numbers[next] as usize] + follows;
        let index = packed.cells[cell as usize];
        numbers[next] = index;
        firsts[index as usize] = next as u32;
        next = starts.next(&mut walk);
    }
}

/// Numbers that take in a part of the sign that stands `at` signs behind each start, in place, and
/// a start for each. After an error the numbers are as before.
fn refine(
    alloc: Global,
    signs: &[Sign],
    starts: &StartSet,
    len: usize,
    at: usize,
    part: u8,
    numbers: &mut [u32],
    count: usize,
) -> Result<Vec<u32>, AllocError>
    requires size { length numbers.old ≡ length signs.now }
    requires at { at < len }
    requires few { length signs.now < 2 ^ 32 }
    requires count { count < 2 ^ 32 }
    requires room { length signs.now ≤ starts_room starts.now }
    requires below { (i : ℕ) → has_window signs.now starts.now len i ≡ true
        → slice_index numbers.old i < count }
    ensures ok { IfOk result (λ firsts. (order : ℕ → ℕ → Ordering)
        → AreOrdered order (has_window signs.now starts.now len) numbers.old count
        → AreNumbers (then_part order (part_behind signs.now at part))
        (has_window signs.now starts.now len) numbers.new firsts.items) }
    ensures few { IfOk result (λ firsts. length firsts.items ≤ length signs.now) }
    ensures err { OnErr result (numbers.new ≡ numbers.old) }
{
    let keys = keys_of(alloc, signs, starts, len, at, part, numbers, count)?;
    let packed = place(alloc, &keys, count)?;
    let mut firsts = vec![in alloc; 0; keys.len()]?;
    rank(
        signs,
        starts,
        len,
        at,
        part,
        &keys,
        &packed,
        numbers,
        &mut firsts,
    );
    Ok(firsts)
}

/// Numbers that take in a part of a sign, in place, where some sign has that part. Gives how many
/// there are.
fn refine_where(
    alloc: Global,
    signs: &[Sign],
    is_there: bool,
    starts: &StartSet,
    len: usize,
    at: usize,
    part: u8,
    numbers: &mut [u32],
    count: usize,
) -> Result<usize, AllocError>
    requires size { length numbers.old ≡ length signs.now }
    requires at { at < len }
    requires few { length signs.now < 2 ^ 32 }
    requires count { count < 2 ^ 32 }
    requires room { length signs.now ≤ starts_room starts.now }
    requires there { is_there ≡ false → (i : ℕ) → part_behind signs.now at part i ≡ 0 }
    requires below { (i : ℕ) → has_window signs.now starts.now len i ≡ true
        → slice_index numbers.old i < count }
    ensures ok { IfOk result (λ n. (order : ℕ → ℕ → Ordering)
        → AreOrdered order (has_window signs.now starts.now len) numbers.old count
        → AreOrdered (then_part order (part_behind signs.now at part))
        (has_window signs.now starts.now len) numbers.new n) }
    ensures few { IfOk result (λ n. n < 2 ^ 32) }
{
    if !is_there {
        return Ok(count);
    }
    let firsts = refine(alloc, signs, starts, len, at, part, numbers, count)?;
    Ok(firsts.len())
}

/// The numbers of windows of one sign more than `at`, from those of `at` signs, in place, and a
/// start for each. No sign is above the greatest.
fn lengthen(
    alloc: Global,
    signs: &[Sign],
    greatest: Sign,
    starts: &StartSet,
    len: usize,
    at: usize,
    numbers: &mut [u32],
    count: usize,
) -> Result<Vec<u32>, AllocError>
    requires size { length numbers.old ≡ length signs.now }
    requires at { at < len }
    requires few { length signs.now < 2 ^ 32 }
    requires count { count < 2 ^ 32 }
    requires room { length signs.now ≤ starts_room starts.now }
    requires greatest { (k : ℕ) → slice_index signs.now k ≤ greatest }
    requires numbers { AreOrdered (window_order signs.now at)
        (has_window signs.now starts.now len) numbers.old count }
    ensures numbers { IfOk result (λ firsts. AreNumbers (window_order signs.now (at + 1))
        (has_window signs.now starts.now len) numbers.new firsts.items) }
    ensures few { IfOk result (λ firsts. length firsts.items ≤ length signs.now) }
{
    let high = greatest >= 4096;
    let some = refine_where(alloc, signs, high, starts, len, at, 2, numbers, count)?;
    let middle = greatest >= 64;
    let more = refine_where(alloc, signs, middle, starts, len, at, 1, numbers, some)?;
    refine(alloc, signs, starts, len, at, 0, numbers, more)
}

/// The numbers of windows of `len` signs, from those of `from` signs, in place, and a start for
/// each.
pub fn number_to(
    alloc: Global,
    signs: &[Sign],
    greatest: Sign,
    starts: &StartSet,
    len: usize,
    from: usize,
    numbers: &mut [u32],
    count: usize,
) -> Result<Vec<u32>, AllocError>
    requires size { length numbers.old ≡ length signs.now }
    requires from { from < len }
    requires few { length signs.now < 2 ^ 32 }
    requires count { count < 2 ^ 32 }
    requires room { length signs.now ≤ starts_room starts.now }
    requires greatest { (k : ℕ) → slice_index signs.now k ≤ greatest }
    requires numbers { AreOrdered (window_order signs.now from)
        (has_window signs.now starts.now len) numbers.old count }
    ensures numbers { IfOk result (λ firsts. AreNumbers (window_order signs.now len)
        (has_window signs.now starts.now len) numbers.new firsts.items) }
    ensures few { IfOk result (λ firsts. length firsts.items ≤ length signs.now) }
{
    let mut firsts = lengthen(alloc, signs, greatest, starts, len, from, numbers, count)?;
    'lengths: for at in from + 1..len {
        let count = firsts.len();
        firsts = lengthen(alloc, signs, greatest, starts, len, at, numbers, count)?;
    }
    Ok(firsts)
}
