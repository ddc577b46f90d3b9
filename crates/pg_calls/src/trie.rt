//! Worked tries over the edge 1, a 2, b 3 and c 4.
ghost use Rattle.std.specs.Prelude.{◌≡◌, OnOk};

use pg_patterns::PatternSet;
use pg_trie::{HOPELESS, PatternTrie};
use pg_types::Sign;
use std::alloc::{AllocError, Global};
use std::process::Abort;
use std::test::Fail;

/// A string of two signs, a dot of it, and a value or `HOPELESS`.
type TrieEntry = ([Sign; 2], u8, u8);

/// Enters a value or a hopeless entry at the dot of a string.
fn enter(trie: &mut PatternTrie, signs: [Sign; 2], dot: u8, value: u8) -> Result<(), Fail>
    requires { trie.old.signs ≡ 4 }
    ensures { OnOk result (trie.new.signs ≡ 4) }
{
    let [first, second] = signs;
    if first < 1 || 4 < first || second < 1 || 4 < second {
        return Err(Fail::new("a string of the edge and three letters"));
    }
    if 2 < dot || value < 1 || HOPELESS < value {
        return Err(Fail::new("a dot within the string, and a value or a hopeless entry"));
    }
    trie.enter(&[first, second], dot, value)?;
    Ok(())
}

/// Enters the strings with their dots and values, and takes the hopeless entries out.
fn enter_all(trie: &mut PatternTrie, entries: &[TrieEntry]) -> Result<(), Fail>
    requires { trie.old.signs ≡ 4 }
{
    for (signs, dot, value) in entries {
        enter(trie, *signs, *dot, *value)?;
    }
    trie.delete_hopeless()?;
    Ok(())
}

/// What a trie says of its cells and records, and a line for each of its patterns.
fn push_told(
    text: &mut String,
    trie: &PatternTrie,
    patterns: &PatternSet,
) -> Result<(), AllocError> {
    let layout = trie.layout();
    write!(text, "{} {} {}\n", layout.taken, layout.top, layout.tails)?;
    for i in 0..patterns.len() {
        let entry = patterns.entry(i);
        write!(text, "{:?} {} {}\n", entry.signs, entry.dot, entry.value)?;
    }
    Ok(())
}

/// The same as one text, once these entries are entered.
fn told(alloc: Global, trie: &mut PatternTrie, entries: &[TrieEntry]) -> Result<String, Fail>
    requires { trie.old.signs ≡ 4 }
{
    enter_all(trie, entries)?;
    let mut text = String::new(alloc);
    let patterns = trie.copy(alloc)?;
    push_told(&mut text, trie, &patterns)?;
    Ok(text)
}

/// What is told of the trie of these entries.
fn told_of(alloc: Global, entries: &[TrieEntry]) -> Result<String, Fail> {
    let mut trie = PatternTrie::new(alloc, 4)?;
    told(alloc, &mut trie, entries)
}

/// Compares what is told of the trie of these entries with a text.
fn compare(
    rt: &impl Abort,
    alloc: Global,
    entries: &[TrieEntry],
    wanted: &str,
) -> Result<(), Fail> {
    let found = told_of(alloc, entries)?;
    assert_eq!(rt; found.as_str(), wanted);
    Ok(())
}

/// Entries, and what is told of the trie without the hopeless ones: the cells, the greatest of them
/// and the records, and the patterns. In the first row a hopeless entry stands beside a value, and
/// in the second two lists share their tail.
const ROWS: &[(&[TrieEntry], &str)] = &[
    (
        &[([2, 3], 1, 1), ([2, 3], 1, HOPELESS)],
        "5 5 1\n[2, 3] 1 1\n",
    ),
    (
        &[([2, 3], 0, 1), ([2, 3], 1, 2), ([4, 3], 1, 2)],
        "6 6 2\n[2, 3] 0 1\n[2, 3] 1 2\n[4, 3] 1 2\n",
    ),
];

#[test]
fn tries_without_hopeless_entries(rt: HostRuntime) -> Result<(), Fail> {
    for (entries, wanted) in ROWS {
        compare(&rt, rt.alloc(), entries, wanted)?;
    }
    Ok(())
}
