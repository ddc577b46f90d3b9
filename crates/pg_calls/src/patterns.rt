//! The longest pattern.
use pg_patterns::PatternSet;
use pg_translate::Table;
use pg_types::ReadingError;
use std::alloc::Global;
use std::test::Fail;

/// The longest pattern, with a digit at each of its dots.
const LONGEST: &[u8] = b"1a1a1a1a1a1a1a1a1a1a1a1a1a1a1a1a1a1a1a1a1a1a1a1a1a1a1a1a1a1a1a1a1";

/// How many entries the pattern has.
fn longest_len(alloc: Global, table: &Table) -> Result<usize, ReadingError> {
    Ok(PatternSet::read(alloc, table, LONGEST)?.len())
}

#[test]
fn the_longest_pattern(rt: HostRuntime) -> Result<(), Fail> {
    let table = Table::default_letters(rt.alloc())?;
    assert_eq!(rt; longest_len(rt.alloc(), &table)?, 33);
    Ok(())
}
