//! The trie of the patterns that a run starts with.
ghost use Rattle.std.specs.Prelude.{◌≡◌, length, IfOk};
ghost use Rattle.pg_types.specs.Inside.Signs.{IsSignCount};
ghost use Rattle.pg_types.specs.Tails.{tails};
ghost use Rattle.pg_patterns.specs.Inside.PatternMaps.{SignsUpTo};
ghost use Rattle.pg_packed.specs.Inside.EnteredPatterns.{AreEntered};

use pg_patterns::{Entry, PatternSet};
use pg_trie::PatternTrie;
use std::alloc::{AllocError, Global};

// Enters the patterns, in their order, into a trie that has none.
fn enter_all(alloc: Global, signs: u16, start: &PatternSet) -> Result<PatternTrie, AllocError>
    requires signs { IsSignCount signs }
    requires known { SignsUpTo signs start.now }
    ensures { IfOk result (λ trie. AreEntered signs start.now trie) }
{
    let mut trie = PatternTrie::new(alloc, signs)?;
    for i in 0..start.len() {
        let Entry { signs, dot, value } = start.entry(i);
        trie.enter(signs, dot, value)?;
    }
    Ok(trie)
}

/// The trie of the patterns, which were entered in their order. It has only the records that they
/// need.
pub fn trie_of(alloc: Global, signs: u16, start: &PatternSet) -> Result<PatternTrie, AllocError>
    requires signs { IsSignCount signs }
    requires known { SignsUpTo signs start.now }
    ensures value { IfOk result (λ trie. AreEntered signs start.now trie) }
    ensures tails { IfOk result (λ trie. length trie.records ≡ tails start.now) }
{
    let mut trie = enter_all(alloc, signs, start)?;
    trie.delete_hopeless()?;
    Ok(trie)
}
