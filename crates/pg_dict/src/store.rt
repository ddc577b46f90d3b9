//! The store: the signs of all words in one vector, and beside each sign the hyphen, weight and
//! care of the position before it.
ghost use Rattle.std.specs.Prelude.{◌≡◌, ◌≤◌, ◌+◌, ◌*◌, [], ◌∷◌, ◌++◌, length, OnOk};
ghost use Rattle.pg_types.specs.declared.limits.TheConstants.{FILE_MAX};
ghost use Rattle.pg_dict.specs.Inside.Lines.PositionedSigns.{with_signs, no_columns, positioned_sign};
ghost use Rattle.pg_dict.specs.Inside.Store.{columns_of, word_at, stored_words, IsSound};
ghost use Rattle.pg_dict.specs.Inside.SoundWords.{IsWord};
ghost use Rattle.pg_dict.specs.Inside.LentWords.{lent_word};

pub mod position;

use crate::store::position::Position;
use crate::word::WordRef;
use pg_types::{Sign, Weight};
use std::alloc::{AllocError, Global};

/// Where a word lies in the store, and its weight.
#[derive(Clone, Copy)]
pub(crate) struct StoredWord {
    /// The index of its first sign.
    pub start: u32,
    /// The index behind its last sign.
    pub end: u32,
    pub weight: Weight,
}

impl StoredWord {
    ghost use Rattle.std.specs.Prelude.{◌≡◌, ◌<◌, ◌^◌};

    /// A word of this weight whose signs have the indices from `start` to before `end`.
    pub(crate) fn new(start: usize, end: usize, weight: Weight) -> StoredWord
        requires start { start < 2 ^ 32 }
        requires end { end < 2 ^ 32 }
        ensures { result ≡ record { start = start; end = end; weight = weight } }
    {
        StoredWord {
            start: start as u32,
            end: end as u32,
            weight,
        }
    }
}

/// The words of a dictionary, each a part of the four columns.
#[derive(Drop)]
pub(crate) struct Store {
    /// The signs of all words, one word after the other.
    pub signs: Vec<Sign>,
    /// Whether the position before the sign at the same index has a hyphen.
    pub hyphens: Vec<bool>,
    /// The weight of that position.
    pub weights: Vec<Weight>,
    /// Whether that position counts.
    pub cares: Vec<bool>,
    /// Where each word lies.
    pub words: Vec<StoredWord>,
}

impl Store {
    /// A store without a word. It takes no memory.
    pub(crate) fn new(alloc: Global) -> Store
        ensures columns { columns_of result ≡ no_columns }
        ensures words { result.words.items ≡ [] }
    {
        Store {
            signs: Vec::new(alloc),
            hyphens: Vec::new(alloc),
            weights: Vec::new(alloc),
            cares: Vec::new(alloc),
            words: Vec::new(alloc),
        }
    }

    /// Lends a word that lies in the columns.
    pub(crate) fn lend(&self, stored: StoredWord) -> WordRef<'_>
        requires sound { IsSound self.now }
        requires begins { stored.start ≤ stored.end }
        requires ends { stored.end ≤ length self.now.signs.items }
        ensures { lent_word result ≡ word_at (columns_of self.now) stored }
    {
        let start = stored.start as usize;
        let end = stored.end as usize;
        WordRef {
            signs: &self.signs[start..end],
            hyphens: &self.hyphens[start..end],
            weights: &self.weights[start..end],
            weight: stored.weight,
            cares: &self.cares[start..end],
        }
    }

    /// Adds a sign, and the position before it. After an error nothing is said of the columns.
    #[inline(always)]
    pub(crate) fn push(&mut self, position: Position, sign: Sign) -> Result<(), AllocError>
        ensures ok { OnOk result (columns_of self.new
            ≡ with_signs (columns_of self.old)
            (positioned_sign position.mark position.weight sign ∷ [])) }
        ensures words { self.new.words.items ≡ self.old.words.items }
    {
        self.signs.push(sign)?;
        self.hyphens.push(position.has_hyphen())?;
        self.weights.push(position.weight)?;
        self.cares.push(position.counts())?;
        Ok(())
    }

    /// Adds a word as it is lent. After an error nothing is said of the store.
    pub(crate) fn push_word(&mut self, word: &WordRef<'_>) -> Result<(), AllocError>
        requires word { IsWord (lent_word word.now) }
        requires sound { IsSound self.old }
        requires few { length self.old.signs.items ≤ 3 * FILE_MAX }
        ensures words { OnOk result
            (stored_words self.new ≡ stored_words self.old ++ lent_word word.now ∷ []) }
        ensures sound { OnOk result (IsSound self.new) }
        ensures signs { OnOk result
            (length self.new.signs.items
            ≡ length self.old.signs.items + length word.now.signs.now) }
        ensures count { OnOk result
            (length self.new.words.items ≡ length self.old.words.items + 1) }
    {
        let start = self.signs.len();
        self.signs.extend_from_slice(word.signs)?;
        self.hyphens.extend_from_slice(word.hyphens)?;
        self.weights.extend_from_slice(word.weights)?;
        self.cares.extend_from_slice(word.cares)?;
        let end = self.signs.len();
        self.words.push(StoredWord::new(start, end, word.weight))?;
        Ok(())
    }
}
