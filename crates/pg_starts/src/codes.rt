//! Windows of a few signs as numbers, with a sign for each digit.
ghost use Rattle.std.specs.Prelude.{◌≡◌, ◌≤◌, ◌<◌, ◌+◌, ◌^◌, ℕ, true, length, slice_index};
ghost use Rattle.std.specs.List.{list_all};
ghost use Rattle.pg_types.specs.Inside.Limits.{positions_limit};
ghost use Rattle.pg_types.specs.Inside.Signs.{is_sign};
ghost use Rattle.pg_starts.specs.Inside.Codes.{code_at, code_count, digits};

use pg_types::{Cursor, Sign};

/// The windows of at most so many signs may be known by their codes.
const CODED: usize = 3;

/// The greatest length whose windows are known by their codes. A code needs no step from length to
/// length. Where there would be more codes than signs, most of them would be
/// those of no window, so no length is coded.
pub fn coded_length(greatest: Sign, size: usize) -> usize
    ensures most { result ≤ 3 }
    ensures few { (len : ℕ) → 1 ≤ len → len ≤ result → code_count (greatest + 1) len ≤ size }
{
    if count_codes(greatest, CODED) <= size {
        CODED
    } else {
        0
    }
}

/// How many codes windows of a length have.
pub fn count_codes(greatest: Sign, len: usize) -> usize
    requires { len ≤ 3 }
    ensures { result ≡ code_count (greatest + 1) len }
{
    let radix = usize::from(greatest) + 1;
    match len {
        0 => 1,
        1 => radix,
        2 => radix * radix,
        _ => radix * radix * radix,
    }
}

/// Writes the code of the window of one sign at each start: the sign.
fn write_signs(signs: &[Sign], codes: &mut [u32])
    requires { length codes.old ≡ length signs.now }
    ensures { (i : ℕ) → i < length signs.now → slice_index codes.new i ≡ slice_index signs.now i }
{
    'starts: for start in 0..signs.len() {
        codes[start] = u32::from(signs[start]);
    }
}

/// Takes the sign `at` signs behind each start into the code there, where so long a window fits.
fn take_in(signs: &[Sign], greatest: Sign, at: usize, codes: &mut [u32])
    requires size { length codes.old ≡ length signs.now }
    requires greatest { (k : ℕ) → slice_index signs.now k ≤ greatest }
    requires few { code_count (greatest + 1) (at + 1) ≤ 2 ^ 32 }
    requires codes { (i : ℕ) → i + at ≤ length signs.now
        → slice_index codes.old i ≡ code_at signs.now (greatest + 1) i at }
    ensures { (i : ℕ) → i + (at + 1) ≤ length signs.now
        → slice_index codes.new i ≡ code_at signs.now (greatest + 1) i (at + 1) }
{
    let radix = u32::from(greatest) + 1;
    let end = signs.len().saturating_sub(at);
    'starts: for start in 0..end {
        codes[start] = codes[start] * radix + u32::from(signs[start + at]);
    }
}

/// Writes the code of the window of so many signs at each start, where it fits. Sign by sign, all
/// codes are made at once.
pub fn write_codes(signs: &[Sign], greatest: Sign, len: usize, codes: &mut [u32])
    requires len { (1 ≤ len) × (len ≤ 3) }
    requires size { length codes.old ≡ length signs.now }
    requires small { length signs.now < positions_limit }
    requires greatest { (k : ℕ) → slice_index signs.now k ≤ greatest }
    requires few { code_count (greatest + 1) len ≤ 2 ^ 32 }
    ensures { (i : ℕ) → i + len ≤ length signs.now
        → slice_index codes.new i ≡ code_at signs.now (greatest + 1) i len }
{
    write_signs(signs, codes);
    'signs: for at in 1..len {
        take_in(signs, greatest, at, codes);
    }
}

/// Puts the window of so many signs with a code into a cursor.
pub fn decode(greatest: Sign, len: usize, code: u32, window: &mut Cursor)
    requires len { (1 ≤ len) × (len ≤ 3) }
    requires signs { list_all is_sign (digits (greatest + 1) len code) ≡ true }
    ensures { window.new ≡ digits (greatest + 1) len code }
{
    let radix = u32::from(greatest) + 1;
    let last = (code % radix) as Sign;
    let front = code / radix;
    let middle = (front % radix) as Sign;
    let first = (front / radix % radix) as Sign;
    match len {
        1 => window.set(&[last]),
        2 => window.set(&[middle, last]),
        _ => window.set(&[first, middle, last]),
    }
}
