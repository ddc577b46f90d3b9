//! The values of a trie as entries of patterns.
ghost use Rattle.std.specs.Prelude.{◌≡◌, ◌≤◌, ◌++◌, true, length, IfOk, OnOk};
ghost use Rattle.std.specs.List.{list_all};
ghost use Rattle.pg_types.specs.declared.limits.TheConstants.{PATTERN_SIGNS_MAX};
ghost use Rattle.pg_patterns.specs.Values.{map_of_entries};
ghost use Rattle.pg_patterns.specs.Inside.PatternMaps.{is_entry};
ghost use Rattle.pg_outputs.specs.Lists.{list_of};
ghost use Rattle.pg_trie.specs.Inside.IsPatternTrie.{IsPatternTrie};
ghost use Rattle.pg_trie.specs.Inside.Maps.{maps_of, entries_in, as_value};
ghost use Rattle.pg_trie.specs.Inside.Strings.{AreStrings};

mod strings;

use crate::copy::strings::{strings, value_of};
use crate::hopeless::HOPELESS;
use crate::lists::head::Head;
use pg_cells::Cells;
use pg_outputs::Outputs;
use pg_patterns::DottedSigns;
use std::alloc::{AllocError, Global};

// Puts the values of a string's list behind the entries.
fn push_values(
    outputs: &Outputs,
    head: u64,
    string: &DottedSigns,
    entries: &mut Vec<(DottedSigns, u8)>,
) -> Result<(), AllocError>
    requires head { head ≤ length outputs.now }
    requires few { length string.now.0 ≤ PATTERN_SIGNS_MAX }
    ensures { OnOk result (entries.new.items
        ≡ entries.old.items ++ entries_in as_value string.now.0 (list_of outputs.now head)) }
{
    let mut at = head;
    while let Some((value, dot, next)) = outputs.first(at) {
        if value < HOPELESS {
            entries.push((DottedSigns::new(string.signs(), dot), value))?;
        }
        at = next;
    }
    Ok(())
}

// The values of the strings, each with its dotted string.
fn gather(
    alloc: Global,
    cells: &Cells<Head>,
    strings: &[DottedSigns],
    outputs: &Outputs,
) -> Result<Vec<(DottedSigns, u8)>, AllocError>
    requires trie { IsPatternTrie cells.now outputs.now }
    requires strings { AreStrings cells.now strings.now }
    ensures sound { IfOk result (λ entries. list_all is_entry entries.items ≡ true) }
    ensures joined { IfOk result
        (λ entries. map_of_entries entries.items ≡ (maps_of cells.now outputs.now).patterns) }
{
    let mut entries = Vec::new(alloc);
    for string in strings {
        let head = value_of(cells, string.signs());
        push_values(outputs, head, string, &mut entries)?;
    }
    Ok(entries)
}

/// The values of all strings, each with its dotted string.
pub fn entries(
    alloc: Global,
    cells: &Cells<Head>,
    outputs: &Outputs,
) -> Result<Vec<(DottedSigns, u8)>, AllocError>
    requires { IsPatternTrie cells.now outputs.now }
    ensures sound { IfOk result (λ entries. list_all is_entry entries.items ≡ true) }
    ensures joined { IfOk result
        (λ entries. map_of_entries entries.items ≡ (maps_of cells.now outputs.now).patterns) }
{
    let strings = strings(alloc, cells)?;
    gather(alloc, cells, &strings, outputs)
}
