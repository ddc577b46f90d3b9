//! Changes of whole rows of bits.
ghost use Rattle.std.specs.Prelude.{◌≡◌, ◌≤◌, ◌<◌, ◌*◌, ◌-◌, ◌^◌, ◌||◌, ◌&&◌, ◌+◌, ℕ, not, nat_le, length, false, IsTrue};
ghost use Rattle.pg_types.specs.Inside.Bits.{has_bit};

use pg_types::bits::{NUMBER_BITS, bits_from};

/// Room is asked for at least this many numbers, 32 MB. A smaller block that is freed would make
/// the allocator of the C library keep later vectors in its heap, where they leave holes as they
/// grow.
pub const ROOM_AT_LEAST: usize = 1 << 22;

/// Adds to each row of bits, from the third on, the bits of the row before it. A row has `width`
/// numbers. The last number is done first, so that a row takes in the old bits of the one before.
pub fn take_in_before(row: &mut [u64], width: usize)
    requires width { 2 * width ≤ length row.old }
    requires few { 64 * length row.old < 2 ^ 64 }
    ensures { (j : ℕ) → j < 64 * length row.old → has_bit row.new j
        ≡ (has_bit row.old j || (nat_le (128 * width) j && has_bit row.old (j - 64 * width))) }
{
    let end = row.len();
    let count = end - 2 * width;
    'numbers: for k in 0..count {
        let x = end - 1 - k;
        row[x] |= row[x - width];
    }
}

/// Inverts the bits of a row, and then sets those that are set in `kept`, a row of the same size.
pub fn turn_others(row: &mut [u64], kept: &[u64])
    requires size { length row.old ≡ length kept.now }
    ensures { (j : ℕ) → j < 64 * length row.old → has_bit row.new j
        ≡ (not (has_bit row.old j) || has_bit kept.now j) }
{
    'numbers: for x in 0..row.len() {
        row[x] = !row[x] | kept[x];
    }
}

/// Sets all bits of a row.
pub fn set_all(row: &mut [u64]) {
    'numbers: for x in 0..row.len() {
        row[x] = u64::MAX;
    }
}

/// Keeps the bits of a row that are set in another one too, each `by` places further on there. What
/// is past the end of that row counts as clear.
pub fn keep_shifted(row: &mut [u64], other: &[u64], by: usize)
    requires { 64 * length row.old + by < 2 ^ 64 }
    ensures old { (j : ℕ) → has_bit row.old j ≡ false → has_bit row.new j ≡ false }
    ensures other { (j : ℕ) → j < 64 * length row.old → has_bit other.now (j + by) ≡ false
        → has_bit row.new j ≡ false }
{
    'numbers: for x in 0..row.len() {
        row[x] &= bits_from(other, x * NUMBER_BITS + by);
    }
}

/// Whether each bit of a row that is clear is clear in another one too. What is past the end of
/// that row counts as set.
pub fn has_clear_part(row: &[u64], whole: &[u64]) -> bool
    ensures { IsTrue result → (j : ℕ) → j < 64 * length row.now
        → has_bit row.now j ≡ false → has_bit whole.now j ≡ false }
{
    if row.len() > whole.len() {
        return false;
    }
    'numbers: for x in 0..row.len() {
        if whole[x] & !row[x] != 0 {
            return false;
        }
    }
    true
}
