//! The values that both engines give from the same patterns. The signs are the edge 1, a 2, b 3 and
//! c 4.
ghost use Rattle.std.specs.Prelude.{◌≡◌, IfOk};
ghost use Rattle.pg_patterns.specs.Inside.PatternMaps.{SignsUpTo};
ghost use Rattle.pg_translate.specs.Alphabets.{letters_of};

use pg_dict::WordRef;
use pg_packed::PackedEngine;
use pg_patterns::PatternSet;
use pg_plain::PlainEngine;
use pg_select::{Engine, WordState};
use pg_translate::Table;
use std::alloc::{AllocError, Global};
use std::test::Fail;

/// A table of three letters.
fn table_of(alloc: Global, bytes: &[u8]) -> Result<Table, Fail>
    ensures { IfOk result (λ table. letters_of table ≡ 3) }
{
    let table = Table::read(alloc, bytes)?;
    if table.letters() != 3 {
        return Err(Fail::new("the letters are a, b and c"));
    }
    Ok(table)
}

/// Patterns over three letters.
fn patterns_of(alloc: Global, table: &Table, bytes: &[u8]) -> Result<PatternSet, Fail>
    requires { letters_of table.now ≡ 3 }
    ensures { IfOk result (SignsUpTo 4) }
{
    Ok(PatternSet::read(alloc, table, bytes)?)
}

/// The patterns `.a1`, `a2b` and `b1c`.
fn start(alloc: Global) -> Result<PatternSet, Fail>
    ensures { IfOk result (SignsUpTo 4) }
{
    let table = table_of(alloc, b" 1 1\n a\n b\n c\n")?;
    patterns_of(alloc, &table, b"b1c\na2b\na1b\n.a1\n")
}

/// The values of the positions 2 and 3 of the word `ab-a`.
fn values<E: Engine>(e: &E) -> [u8; 2]
    requires { (E.meaning e.now).signs ≡ 4 }
{
    let word = WordRef {
        signs: &[1, 2, 3, 2, 1],
        hyphens: &[false, false, false, true, false],
        weights: &[1; 5],
        weight: 1,
        cares: &[true; 5],
    };
    let mut state = WordState::new();
    e.hyphenate(word, &mut state);
    [state.value(2), state.value(3)]
}

/// The values of the plain engine.
fn plain(alloc: Global, start: &PatternSet) -> Result<[u8; 2], AllocError>
    requires { SignsUpTo 4 start.now }
{
    Ok(values(&PlainEngine::new(alloc, 4, start)?))
}

/// The values of the packed engine.
fn packed(alloc: Global, start: &PatternSet) -> Result<[u8; 2], AllocError>
    requires { SignsUpTo 4 start.now }
{
    Ok(values(&PackedEngine::new(alloc, 4, start)?))
}

#[test]
fn the_same_values_from_both_engines(rt: HostRuntime) -> Result<(), Fail> {
    let start = start(rt.alloc())?;
    assert_eq!(rt; plain(rt.alloc(), &start)?, [2, 0]);
    assert_eq!(rt; packed(rt.alloc(), &start)?, [2, 0]);
    Ok(())
}
