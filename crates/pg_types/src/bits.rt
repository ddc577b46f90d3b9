//! Rows of bits, kept in numbers of 64 bits.
ghost use Rattle.std.specs.Prelude.{◌≡◌, ◌<◌, ◌*◌, ◌+◌, ◌^◌, ◌||◌, ◌&&◌, ◌==◌, ℕ, not, length, slice_index};
ghost use Rattle.std.specs.Int.{bit_at};
ghost use Rattle.pg_types.specs.Inside.Bits.{has_bit};

/// How many bits a number has.
pub const NUMBER_BITS: usize = 64;

/// Sets bit `i` of a row.
pub fn set(row: &mut [u64], i: usize)
    requires { i < 64 * length row.old }
    ensures { (j : ℕ) → has_bit row.new j ≡ (j == i || has_bit row.old j) }
{
    row[i / NUMBER_BITS] |= 1 << (i % NUMBER_BITS);
}

/// Clears bit `i` of a row.
pub fn clear(row: &mut [u64], i: usize)
    requires { i < 64 * length row.old }
    ensures { (j : ℕ) → has_bit row.new j ≡ (not (j == i) && has_bit row.old j) }
{
    row[i / NUMBER_BITS] &= !(1 << (i % NUMBER_BITS));
}

/// The index of the lowest set bit of a number.
pub fn lowest_set(number: u64) -> usize
    requires { 0 < number }
    ensures within { result < 64 }
    ensures set { bit_at number result ≡ 1 }
    ensures before { (i : ℕ) → i < result → bit_at number i ≡ 0 }
{
    number.trailing_zeros() as usize
}

/// The 64 bits of a row from bit `i` on, as a number. Bits past the end of the row are clear.
#[inline]
pub fn bits_from(row: &[u64], i: usize) -> u64
    ensures { (j : ℕ) → j < 64 → (bit_at result j == 1) ≡ has_bit row.now (i + j) }
{
    let at = i / NUMBER_BITS;
    let bit = i % NUMBER_BITS;
    let (here, next) = numbers_at(row, at);
    here >> bit | next << 1 << (NUMBER_BITS - 1 - bit)
}

// The number at an index of a row and the one behind it; 0 past the end. Mostly both are there.
#[inline]
fn numbers_at(row: &[u64], at: usize) -> (u64, u64)
    requires { at < 2 ^ 63 }
    ensures here { result.0 ≡ slice_index row.now at }
    ensures next { result.1 ≡ slice_index row.now (at + 1) }
{
    if at + 1 < row.len() {
        return (row[at], row[at + 1]);
    }
    (number_at(row, at), 0)
}

// The number at an index of a row; 0 past the end.
#[inline]
fn number_at(row: &[u64], at: usize) -> u64
    ensures { result ≡ slice_index row.now at }
{
    if at < row.len() { row[at] } else { 0 }
}
