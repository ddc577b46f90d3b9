//! The lists of the strings without their hopeless entries, in new records.
ghost use Rattle.std.specs.Prelude.{◌≡◌, ◌+◌, ◌<◌, ◌≤◌, ℕ, List, length, Some, IfOk, OnOk};
ghost use Rattle.std.specs.FinMap.{find};
ghost use Rattle.std.specs.Cmp.Lexicographic.{slice_cmp};
ghost use Rattle.std.specs.Ordering.{nat_cmp};
ghost use Rattle.pg_outputs.specs.Lists.{list_of};
ghost use Rattle.pg_outputs.specs.Inside.Heads.{Grows, OneHeadEach};
ghost use Rattle.pg_cells.specs.Inside.linked.AreValuedFamilies.{AreValuedFamilies};
ghost use Rattle.pg_trie.specs.Inside.IsPatternTrie.{IsPatternTrie};
ghost use Rattle.pg_trie.specs.Inside.FreshLists.{values_in, AreNeeded, AreUnknown, AreFreshTo, AreFresh, Renews};

use crate::hopeless::HOPELESS;
use crate::lists::head::{Head, in_four_bytes};
use pg_cells::Cells;
use pg_outputs::Outputs;
use std::alloc::{AllocError, Global};

/// Stands beside an old head whose new one is not known yet.
pub const UNKNOWN: u32 = u32::MAX;

// The head, among the new records, of the list without its hopeless entries.
fn fresh_head(outputs: &Outputs, head: u64, fresh: &mut Outputs) -> Result<u64, AllocError>
    requires { head ≤ length outputs.now }
    ensures list { IfOk result (λ h. list_of fresh.new h ≡ values_in (list_of outputs.now head)) }
    ensures inside { IfOk result (λ h. h ≤ length fresh.new) }
    ensures grows { Grows fresh.old fresh.new }
    ensures one_head { OnOk result (OneHeadEach fresh.old → OneHeadEach fresh.new) }
    ensures needed { OnOk result
        (AreNeeded fresh.old fresh.new (values_in (list_of outputs.now head))) }
{
    let Some((value, dot, next)) = outputs.first(head) else {
        return Ok(0);
    };
    let rest = fresh_head(outputs, next, fresh)?;
    if value < HOPELESS {
        fresh.cons(value, dot, rest)
    } else {
        Ok(rest)
    }
}

// `UNKNOWN`, `count + 1` times.
fn no_heads(alloc: Global, count: u64) -> Result<Vec<u32>, AllocError>
    ensures length { IfOk result (λ heads. length heads.items ≡ count + 1) }
    ensures unknown { IfOk result (λ heads. AreUnknown heads.items) }
{
    let mut heads = Vec::new(alloc);
    'fill: while (heads.len() as u64) <= count {
        heads.push(UNKNOWN)?;
    }
    Ok(heads)
}

// The new head of the string with the cell, beside its old one. Strings with equal lists have one
// head, so it is mostly known.
fn renew_cell(
    cells: &Cells<Head>,
    cell: usize,
    outputs: &Outputs,
    fresh: &mut Outputs,
    heads: &mut [u32],
) -> Result<(), AllocError>
    requires trie { IsPatternTrie cells.now outputs.now }
    requires heads { AreFreshTo cells.now outputs.now cell fresh.old heads.old }
    ensures { OnOk result (AreFreshTo cells.now outputs.now (cell + 1) fresh.new heads.new) }
{
    let Some(head) = cells.value_if_taken(cell) else {
        return Ok(());
    };
    let old_head = head.number();
    if heads[old_head as usize] != UNKNOWN {
        return Ok(());
    }
    let number = fresh_head(outputs, old_head, fresh)?;
    let new_head = in_four_bytes(number)?;
    heads[old_head as usize] = new_head;
    Ok(())
}

/// For the old head of each string the head of its list without the hopeless entries, among new
/// records. These are only the records that such lists need.
pub fn fresh_heads(
    alloc: Global,
    cells: &Cells<Head>,
    outputs: &Outputs,
    fresh: &mut Outputs,
) -> Result<Vec<u32>, AllocError>
    requires trie { IsPatternTrie cells.now outputs.now }
    requires empty { length fresh.old ≡ 0 }
    ensures { IfOk result (λ heads. AreFresh cells.now outputs.now fresh.new heads.items) }
{
    let mut heads = no_heads(alloc, outputs.len())?;
    let top = cells.top();
    for cell in 0..top + 1 {
        renew_cell(cells, cell, outputs, fresh, heads.as_mut_slice())?;
    }
    Ok(heads)
}

/// Gives each string its new head.
pub fn renew(cells: &mut Cells<Head>, heads: &[u32])
    requires held { AreValuedFamilies cells.old }
    requires heads { (q : List ℕ) (u : ℕ) → find (slice_cmp nat_cmp) q cells.old.values ≡ Some u →
        u < length heads.now }
    ensures { Renews cells.old heads.now cells.new }
{
    let top = cells.top();
    for cell in 0..top + 1 {
        if let Some(head) = cells.value_if_taken(cell) {
            cells.set_value(cell, Head::new(heads[head.number() as usize]));
        }
    }
}
