//! The numbers of the next length in packed cells: one read for each start.
ghost use Rattle.std.specs.Prelude.{◌≡◌, ◌≢◌, ℕ, ◌+◌, ◌<◌, ◌≤◌, ◌^◌, length, vec_len, IfOk, OnOk, IsTrue, slice_index};
ghost use Rattle.std.specs.List.Sorted.{IsStrictlyIncreasing};
ghost use Rattle.pg_starts.specs.Inside.Cells.{number_of, cell_of, IsFree, ArePacked, IsFamily};

use std::alloc::{AllocError, Global};

/// How many parts a family may have.
const PARTS: u64 = 64;

/// A cell that no key has.
const FREE: u32 = 0xffff_ffff;

/// How far below the end a free cell is looked for, for a family's first part.
const GAP: usize = 16;

/// Where each family is, and the numbers in the cells.
#[derive(Drop)]
pub struct PackedKeys {
    /// The base of the family of each number.
    pub bases: Vec<u64>,
    /// The index of a key, at the base of its family and its part.
    pub cells: Vec<u32>,
}

/// The end of the family that begins at a key.
fn family_end(keys: &[u64], from: usize) -> usize
    requires inside { from < length keys.now }
    requires rising { IsStrictlyIncreasing keys.now }
    ensures { IsFamily keys.now from result }
{
    let number = keys[from] / PARTS;
    for k in from + 1..keys.len() {
        if keys[k] / PARTS != number {
            return k;
        }
    }
    keys.len()
}

/// Whether a family fits at a base.
fn fits_at(cells: &[u32], family: &[u64], base: usize) -> bool
    requires near { base ≤ length cells.now }
    ensures { IsTrue result → (k : ℕ) → k < length family.now
        → IsFree cells.now (cell_of base (slice_index family.now k)) }
{
    for key in family {
        let cell = base + (*key % PARTS) as usize;
        if cell < cells.len() && cells[cell] != FREE {
            return false;
        }
    }
    true
}

/// The first free cell from one on. The end is free.
fn first_free(cells: &[u32], from: usize) -> usize {
    for cell in from..cells.len() {
        if cells[cell] == FREE {
            return cell;
        }
    }
    from.max(cells.len())
}

/// The first base from one on at which a family fits.
fn first_fit(cells: &[u32], family: &[u64], lowest: usize) -> usize
    ensures near { result ≤ length cells.now }
    ensures free { (k : ℕ) → k < length family.now
        → IsFree cells.now (cell_of result (slice_index family.now k)) }
{
    for base in lowest..cells.len() {
        if fits_at(cells, family, base) {
            return base;
        }
    }
    cells.len()
}

/// Makes the cells at least so many, with free ones.
fn grow(cells: &mut Vec<u32>, count: usize) -> Result<(), AllocError>
    ensures long { OnOk result (count ≤ vec_len cells.new) }
    ensures more { OnOk result (vec_len cells.old ≤ vec_len cells.new) }
    ensures kept { OnOk result ((c : ℕ) → c < vec_len cells.old
        → slice_index cells.new.items c ≡ slice_index cells.old.items c) }
    ensures free { OnOk result ((c : ℕ) → vec_len cells.old ≤ c → IsFree cells.new.items c) }
{
    for _ in cells.len()..count {
        cells.push(FREE)?;
    }
    Ok(())
}

/// Writes the places of a family's keys into its cells.
fn fill(cells: &mut [u32], keys: &[u64], from: usize, upto: usize, base: usize)
    requires family { IsFamily keys.now from upto }
    requires rising { IsStrictlyIncreasing keys.now }
    requires few { length keys.now < 2 ^ 32 }
    requires room { (k : ℕ) → from ≤ k → k < upto
        → cell_of base (slice_index keys.now k) < length cells.old }
    requires near { base ≤ length cells.old }
    ensures placed { (k : ℕ) → from ≤ k → k < upto
        → slice_index cells.new (cell_of base (slice_index keys.now k)) ≡ k }
    ensures kept { (c : ℕ)
        → ((k : ℕ) → from ≤ k → k < upto → c ≢ cell_of base (slice_index keys.now k))
        → slice_index cells.new c ≡ slice_index cells.old c }
{
    for k in from..upto {
        cells[base + (keys[k] % PARTS) as usize] = k as u32;
    }
}

/// Places each family once, with all its signs, at the first base near the end that fits.
pub fn place(alloc: Global, keys: &[u64], count: usize) -> Result<PackedKeys, AllocError>
    requires rising { IsStrictlyIncreasing keys.now }
    requires few { length keys.now < 2 ^ 32 }
    requires below { (k : ℕ) → k < length keys.now → number_of (slice_index keys.now k) < count }
    ensures { IfOk result (λ p. ArePacked keys.now (length keys.now) p.bases.items p.cells.items) }
{
    let mut bases = vec![in alloc; 0u64; count]?;
    let mut cells = Vec::new(alloc);
    let mut from = 0;
    let mut free = 0;
    'families: while from < keys.len() {
        let upto = family_end(keys, from);
        free = first_free(&cells, cells.len().saturating_sub(GAP).max(free));
        let lowest = free.saturating_sub((keys[from] % PARTS) as usize);
        let base = first_fit(&cells, &keys[from..upto], lowest);
        let last = (keys[upto - 1] % PARTS) as usize;
        grow(&mut cells, base + last + 1)?;
        fill(&mut cells, keys, from, upto, base);
        bases[(keys[from] / PARTS) as usize] = base as u64;
        from = upto;
    }
    Ok(PackedKeys { bases, cells })
}
