//! The cells and the shared lists of patterns.
ghost use Rattle.std.specs.Prelude.{◌≡◌, ℕ, ◌<◌, ◌≤◌, List, [], length, map, slice_get, Some, IfOk, OnOk};
ghost use Rattle.pg_types.specs.Inside.Signs.{IsSignCount};
ghost use Rattle.pg_patterns.specs.Inside.PatternMaps.{SignsUpTo};
ghost use Rattle.pg_outputs.specs.Lists.{list_of};
ghost use Rattle.pg_outputs.specs.Inside.Heads.{Grows, OneHeadEach};
ghost use Rattle.pg_cells.specs.Inside.families.Root.{root_alone};
ghost use Rattle.pg_cells.specs.Inside.linked.AreValuedFamilies.{AreValuedFamilies};
ghost use Rattle.pg_table.specs.Inside.text.PackedTrie.{IsGroup, IsEntered, dot_values};
ghost use Rattle.pg_table.specs.Inside.text.Sharing.{Lists, Shares, value_and_dot, with_ends};

use pg_cells::{Cells, enter};
use pg_outputs::Outputs;
use pg_patterns::PatternSet;
use std::alloc::{AllocError, Global};

/// The cells of the strings of patterns, each with the head of its string's list.
#[derive(Drop)]
pub struct PackedTrie {
    /// A cell for each string, with the head of its list.
    pub cells: Cells<u64>,
    /// The lists, each value with its dot.
    pub outputs: Outputs,
}

/// Enters all patterns in their order. The pattern trie is not used: here each string is met once,
/// with all its values, so its list is made in one go, no value is raised and nothing is hopeless.
pub fn enter_all(alloc: Global, signs: u16, patterns: &PatternSet) -> Result<PackedTrie, AllocError>
    requires signs { IsSignCount signs }
    requires known { SignsUpTo signs patterns.now }
    ensures { IfOk result (λ packed. IsEntered signs patterns.now packed.cells packed.outputs) }
{
    let mut cells = Cells::new(alloc, signs, 0)?;
    let mut outputs = Outputs::new(alloc);
    enter_strings(patterns, &mut cells, &mut outputs)?;
    Ok(PackedTrie { cells, outputs })
}

/// Enters all patterns into cells and records that have none yet.
fn enter_strings(
    patterns: &PatternSet,
    cells: &mut Cells<u64>,
    outputs: &mut Outputs,
) -> Result<(), AllocError>
    requires known { SignsUpTo cells.old.signs patterns.now }
    requires cells { cells.old ≡ root_alone cells.old.signs 0 }
    requires held { AreValuedFamilies cells.old }
    requires outputs { outputs.old ≡ [] }
    requires one_head { OneHeadEach outputs.old }
    ensures { OnOk result (IsEntered cells.old.signs patterns.now cells.new outputs.new) }
{
    let mut at = 0;
    'strings: while at < patterns.len() {
        let end = string_end(patterns, at);
        let head = share(patterns, at, end, outputs)?;
        let cell = enter(cells, patterns.entry(at).signs, 0)?;
        cells.set_value(cell, head);
        at = end;
    }
    Ok(())
}

/// Where the entries end that have the string of the entry at `at`.
fn string_end(patterns: &PatternSet, at: usize) -> usize
    requires { at < length patterns.now }
    ensures { (e : (List ℕ × ℕ) × ℕ) → slice_get patterns.now at ≡ Some e
        → IsGroup patterns.now e.0.0 at result }
{
    let count = patterns.len();
    let signs = patterns.entry(at).signs;
    for end in at + 1..count {
        if patterns.entry(end).signs != signs {
            return end;
        }
    }
    count
}

/// The head of the list of the entries from `at` to `end`, whose ends are shared from the shortest
/// on.
fn share(
    patterns: &PatternSet,
    at: usize,
    end: usize,
    outputs: &mut Outputs,
) -> Result<u64, AllocError>
    requires order { at ≤ end }
    requires within { end ≤ length patterns.now }
    ensures shares { IfOk result (λ head. (lists : Lists) →
        Shares outputs.old lists
        → Shares outputs.new (with_ends lists (dot_values patterns.now at end))) }
    ensures list { IfOk result
        (λ head. list_of outputs.new head ≡ map value_and_dot (dot_values patterns.now at end)) }
    ensures inside { IfOk result (λ head. head ≤ length outputs.new) }
    ensures grows { Grows outputs.old outputs.new }
{
    let mut head = 0;
    let mut i = end;
    while i > at {
        i -= 1;
        let entry = patterns.entry(i);
        head = outputs.cons(entry.value, entry.dot, head)?;
    }
    Ok(head)
}
