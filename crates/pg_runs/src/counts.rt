//! The windows that a pass counts, with their sums of good and bad weights.
ghost use Rattle.std.specs.Prelude.{◌<◌, ◌+◌, IfOk};
ghost use Rattle.pg_types.specs.Inside.Limits.{begun_before_pass};
ghost use Rattle.pg_translate.specs.Alphabets.{letters_of};
ghost use Rattle.pg_dict.specs.Inside.SoundWords.{SignsAtMost};
ghost use Rattle.pg_patterns.specs.Inside.PatternMaps.{SignsUpTo};
ghost use Rattle.pg_driver.specs.Inside.level.States.{IsPass};

use crate::plain::count_words;
use pg_dict::Dictionary;
use pg_patterns::PatternSet;
use pg_plain::PlainEngine;
use pg_select::{Engine, Pass};
use pg_translate::Table;
use pg_types::{Cursor, LENGTH_MAX, LEVEL_MAX};
use std::alloc::{AllocError, Global};
use std::process::Abort;
use std::test::Fail;

/// Minima 1 and 1, and the letters a, b and c.
const LETTERS: &[u8] = b" 1 1\n a\n b\n c\n";

/// What a row has, in this order:
///
/// - the lines of a dictionary, each with how often it stands there;
/// - patterns;
/// - the level of a pass from these, and the length and the dot of its windows;
/// - a line for each window that the pass counts: its signs, its sum of good weights, and its sum
///   of bad ones.
type Row = (
    &'static [(u32, &'static [u8])],
    &'static [u8],
    [u8; 3],
    &'static str,
);

/// Two words with a hyphen each.
const TWO_WORDS: &[(u32, &[u8])] = &[(1, b"ab-c\n"), (1, b"ab-a\n")];

/// A word with a hyphen, twice, and a longer one without.
const THREE_WORDS: &[(u32, &[u8])] = &[(2, b"a-b\n"), (1, b"cab\n")];

/// The edge is the sign 1, a 2, b 3 and c 4.
const ROWS: &[Row] = &[
    (
        TWO_WORDS,
        b"",
        [1, 2, 1],
        "[2, 3] 0 2\n[3, 2] 1 0\n[3, 4] 1 0\n",
    ),
    (
        TWO_WORDS,
        b"",
        [1, 2, 0],
        "[2, 1] 1 0\n[3, 2] 0 1\n[3, 4] 0 1\n[4, 1] 1 0\n",
    ),
    (TWO_WORDS, b"", [1, 2, 2], "[1, 2] 0 2\n[2, 3] 2 0\n"),
    // At the second level errors are good, and found hyphens are bad.
    (THREE_WORDS, b"a1b\n", [2, 3, 1], "[2, 3, 1] 1 2\n"),
    (
        THREE_WORDS,
        b"a1b\n",
        [2, 3, 2],
        "[1, 2, 3] 0 2\n[4, 2, 3] 1 0\n",
    ),
    // A sum whose product with a weight of 1,000,000 needs more than 32 bits.
    (
        &[(477, b"9ab-c\n"), (1, b"2ab-c\n")],
        b"",
        [1, 1, 0],
        "[3] 0 4295\n[4] 4295 0\n",
    ),
    // A window at both kinds of position, and twice in one word.
    (
        &[(1, b"a-bab\n")],
        b"",
        [1, 2, 1],
        "[2, 3] 1 1\n[3, 2] 0 1\n",
    ),
    // A position of weight 0 gives a window too.
    (
        &[(1, b"a-0bc\n")],
        b"",
        [1, 2, 1],
        "[2, 3] 0 0\n[3, 4] 0 1\n",
    ),
    // So does each position of a word of weight 0.
    (
        &[(1, b"0ab-c\n")],
        b"",
        [1, 2, 1],
        "[2, 3] 0 0\n[3, 4] 0 0\n",
    ),
    // A word of weight 0 adds nothing to the sums of the same windows.
    (
        &[(1, b"0ab-c\n"), (1, b"1ab-c\n")],
        b"",
        [1, 2, 1],
        "[2, 3] 0 1\n[3, 4] 1 0\n",
    ),
    // A window at both kinds of position, in two words.
    (THREE_WORDS, b"", [1, 2, 1], "[2, 3] 2 1\n[4, 2] 0 1\n"),
];

/// Appends a line so many times.
fn push_line(text: &mut Vec<u8>, times: u32, line: &[u8]) -> Result<(), AllocError> {
    for _ in 0..times {
        text.extend_from_slice(line)?;
    }
    Ok(())
}

/// The bytes of lines, each so many times.
fn text_of(alloc: Global, lines: &[(u32, &[u8])]) -> Result<Vec<u8>, AllocError> {
    let mut text = Vec::new(alloc);
    for (times, line) in lines {
        push_line(&mut text, *times, line)?;
    }
    Ok(text)
}

/// Begins a pass and counts its windows.
fn count_pass<E: Engine>(
    engine: &mut E,
    dictionary: &Dictionary,
    table: &Table,
    pass: Pass,
) -> Result<(), Fail>
    requires ranges { IsPass pass }
    requires begun { (E.meaning engine.old).begun < begun_before_pass }
    requires signs { SignsAtMost (E.meaning engine.old).signs dictionary.now }
{
    engine.begin_pass(pass.level, pass.len, pass.dot);
    count_words(engine, dictionary, table, pass)
}

/// The windows that an engine counted, in the order of signs.
fn windows_of<E: Engine>(alloc: Global, engine: &E) -> Result<String, AllocError> {
    let mut text = String::new(alloc);
    let mut at = Cursor::start();
    for _ in 0..100 {
        if let Some((good, bad)) = engine.next_candidate(&mut at) {
            write!(text, "{:?} {good} {bad}\n", at.signs())?;
        }
    }
    Ok(text)
}

/// The windows that a pass counts, from these patterns.
fn windows_from(
    alloc: Global,
    table: &Table,
    dictionary: &Dictionary,
    start: &PatternSet,
    pass: Pass,
) -> Result<String, Fail>
    requires ranges { IsPass pass }
    requires words { SignsAtMost (letters_of table.now + 1) dictionary.now }
    requires patterns { SignsUpTo (letters_of table.now + 1) start.now }
{
    let mut engine = PlainEngine::new(alloc, table.letters() + 1, start)?;
    count_pass(&mut engine, dictionary, table, pass)?;
    Ok(windows_of(alloc, &engine)?)
}

/// The pass of a level, a length and a dot.
fn pass_of(numbers: [u8; 3]) -> Result<Pass, Fail>
    ensures { IfOk result IsPass }
{
    let [level, len, dot] = numbers;
    if level < 1 || LEVEL_MAX < level || len < 1 || LENGTH_MAX < len || len < dot {
        return Err(Fail::new("a level, a length and a dot"));
    }
    Ok(Pass { level, len, dot })
}

/// The windows that the pass of a row counts, under its table, in these words.
fn counted_in(
    alloc: Global,
    table: &Table,
    dictionary: &Dictionary,
    start: &[u8],
    pass: [u8; 3],
) -> Result<String, Fail>
    requires { SignsAtMost (letters_of table.now + 1) dictionary.now }
{
    let pass = pass_of(pass)?;
    let start = PatternSet::read(alloc, table, start)?;
    windows_from(alloc, table, dictionary, &start, pass)
}

/// The windows that the pass of a row counts, under its table.
fn counted(alloc: Global, table: &Table, row: &Row) -> Result<String, Fail> {
    let (lines, start, pass, _) = *row;
    let text = text_of(alloc, lines)?;
    let dictionary = Dictionary::read(alloc, table, &text)?;
    counted_in(alloc, table, &dictionary, start, pass)
}

/// Compares the windows that the pass of a row counts with those of the row.
fn compare(rt: &impl Abort, alloc: Global, table: &Table, row: &Row) -> Result<(), Fail> {
    let (_, _, _, wanted) = *row;
    let windows = counted(alloc, table, row)?;
    assert_eq!(rt; windows.as_str(), wanted);
    Ok(())
}

/// Compares those of all rows.
fn compare_all(rt: &impl Abort, alloc: Global, table: &Table) -> Result<(), Fail> {
    for row in ROWS {
        compare(rt, alloc, table, row)?;
    }
    Ok(())
}

#[test]
fn windows_with_their_sums(rt: HostRuntime) -> Result<(), Fail> {
    let table = Table::read(rt.alloc(), LETTERS)?;
    compare_all(&rt, rt.alloc(), &table)
}
