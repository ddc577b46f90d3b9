//! The positions that pruning compares, and at which of them each entry stands.
ghost use Rattle.std.specs.Prelude.{◌≡◌, ◌+◌, ◌++◌, map, IfOk, OnOk};
ghost use Rattle.pg_dict.specs.Inside.SoundWords.{IsWord};
ghost use Rattle.pg_dict.specs.Inside.LentWords.{lent_word};
ghost use Rattle.pg_prune.specs.Positions.{positions_in_reach as positions_of};
ghost use Rattle.pg_prune.specs.Inside.positions.WordPositions.{positions_in};
ghost use Rattle.pg_prune.specs.Inside.positions.PositionInReach.{need_at};

pub mod gather;
mod trail;

use crate::pruned::Need;
use pg_dict::{Dictionary, WordRef};
use pg_select::marks::positions;
use pg_translate::Table;
use std::alloc::{AllocError, Global};

/// Adds the positions in reach of the word with this number.
fn add_word(
    all: &mut Vec<Need>,
    table: &Table,
    word: u64,
    w: &WordRef<'_>,
) -> Result<(), AllocError>
    requires { IsWord (lent_word w.now) }
    ensures { OnOk result (all.new.items
        ≡ all.old.items ++ map need_at
        (positions_in table.now word (lent_word w.now))) }
{
    let Some((first, end)) = positions(table, w) else {
        return Ok(());
    };
    'positions: for p in first..end {
        let position = p as u8;
        all.push(Need { word, position })?;
    }
    Ok(())
}

/// All positions in reach of the words, word by word.
pub(crate) fn positions_in_reach(
    alloc: Global,
    dictionary: &Dictionary,
    table: &Table,
) -> Result<Vec<Need>, AllocError>
    ensures { IfOk result
        (λ all. all.items ≡ map need_at (positions_of table.now dictionary.now)) }
{
    let mut all = Vec::new(alloc);
    'words: for i in 0..dictionary.len() {
        add_word(&mut all, table, i as u64 + 1, &dictionary.word(i))?;
    }
    Ok(all)
}
