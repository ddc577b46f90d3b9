//! Which parts of signs follow the windows of a number, found without a sort.
ghost use Rattle.std.specs.Prelude.{◌≡◌, ◌≢◌, ◌≤◌, ◌<◌, ◌+◌, ◌*◌, ◌^◌, ℕ, if◌then◌else◌, true, length, slice_index, IfOk};
ghost use Rattle.pg_dots.specs.Inside.Starts.{starts_room};
ghost use Rattle.pg_starts.specs.Inside.Starts.{has_window, part_of as part_of_sign, part_behind};
ghost use Rattle.pg_starts.specs.Inside.Orders.{AreKeys};
ghost use Rattle.pg_starts.specs.Inside.Sets.{AreOfSets, AreSets};

use pg_dots::StartSet;
use pg_types::Sign;
use std::alloc::{AllocError, Global};

/// How many values a part of a sign has. A sign is taken in three parts, so that a set of parts is
/// one number under each table of letters.
const PARTS: u64 = 64;

/// A part of a sign: the one with the number 2 is the highest.
pub fn part_of(sign: Sign, part: u8) -> u64
    ensures value { result ≡ part_of_sign part sign }
    ensures low { result < 64 }
{
    let sign = u64::from(sign);
    match part {
        2 => sign / 4096,
        1 => sign / PARTS % PARTS,
        _ => sign % PARTS,
    }
}

/// Marks the part that follows at each start, in the set of the start's number.
fn mark(
    signs: &[Sign],
    starts: &StartSet,
    len: usize,
    at: usize,
    part: u8,
    numbers: &[u32],
    sets: &mut [u64],
)
    requires size { length numbers.now ≡ length signs.now }
    requires at { at < len }
    requires room { length signs.now ≤ starts_room starts.now }
    requires below { (i : ℕ) → has_window signs.now starts.now len i ≡ true
        → slice_index numbers.now i < length sets.old }
    requires none { (r : ℕ) → slice_index sets.old r ≡ 0 }
    ensures { AreSets (has_window signs.now starts.now len) (part_behind signs.now at part)
        numbers.now sets.new }
{
    let end = (signs.len() + 1).saturating_sub(len);
    let mut walk = starts.walk();
    let mut next = starts.next(&mut walk);
    'starts: while next < end {
        let follows = part_of(signs[next + at], part);
        sets[numbers[next] as usize] |= 1u64 << follows;
        next = starts.next(&mut walk);
    }
}

/// The keys of the sets, in order. There are at most so many. Room for all is taken at once: a list
/// that grows would be copied, and stand twice meanwhile.
fn gather(alloc: Global, sets: &[u64], most: usize) -> Result<Vec<u64>, AllocError>
    requires few { length sets.now < 2 ^ 32 }
    ensures { IfOk result (λ v. AreOfSets sets.now (length sets.now) v.items) }
{
    let mut keys = Vec::with_capacity(alloc, most)?;
    'numbers: for number in 0..sets.len() {
        let mut left = sets[number];
        'parts: while left != 0 {
            let lowest = left.trailing_zeros();
            keys.push(number as u64 * PARTS + u64::from(lowest))?;
            left &= !(1u64 << lowest);
        }
    }
    Ok(keys)
}

/// The keys of all starts: each of the numbers with each part that follows, once, rising.
pub fn keys_of(
    alloc: Global,
    signs: &[Sign],
    starts: &StartSet,
    len: usize,
    at: usize,
    part: u8,
    numbers: &[u32],
    count: usize,
) -> Result<Vec<u64>, AllocError>
    requires size { length numbers.now ≡ length signs.now }
    requires at { at < len }
    requires room { length signs.now ≤ starts_room starts.now }
    requires below { (i : ℕ) → has_window signs.now starts.now len i ≡ true
        → slice_index numbers.now i < count }
    requires few { count < 2 ^ 32 }
    ensures keys { IfOk result (λ v. AreKeys (has_window signs.now starts.now len)
        (part_behind signs.now at part) numbers.now v.items) }
    ensures few { IfOk result (λ v. length v.items ≤ length signs.now) }
{
    let mut sets = vec![in alloc; 0u64; count]?;
    mark(signs, starts, len, at, part, numbers, &mut sets);
    let keys = gather(alloc, &sets, signs.len())?;
    Ok(keys)
}
