//! What stands at each sign of all words, in one row: what a walk over the signs asks at each of
//! them.
ghost use Rattle.std.specs.Prelude.{◌≡◌, ℕ, false, ◌++◌, slice_index_or, IfOk, OnOk};
ghost use Rattle.pg_dict.specs.Word.{Word};
ghost use Rattle.pg_dict.specs.Inside.SoundWords.{IsWord};
ghost use Rattle.pg_dict.specs.Inside.LentWords.{lent_word};
ghost use Rattle.pg_dict.specs.Inside.Sites.{site_of, sites_in, all_sites};
ghost use Rattle.pg_dict.specs.Inside.Store.{IsSound, stored_words};

use crate::store::Store;
use crate::word::WordRef;
use std::alloc::{AllocError, Global};

/// What stands at a sign of a word: how many signs of its word stand from it on, and whether the
/// position before it has a hyphen.
#[derive(Clone, Copy)]
pub struct Site {
    /// Twice how many signs of its word there are from it on, and one more where the position
    /// before it has a hyphen.
    pub left: u8,
}

impl Site {
    /// Whether the position before the sign has a hyphen.
    pub fn has_hyphen(self) -> bool
        ensures { (w : Word) (p : ℕ) → self ≡ site_of w p
            → result ≡ slice_index_or w.hyphens p false }
    {
        self.left % 2 == 1
    }
}

/// Adds what stands at each sign of a word.
fn push_sites(sites: &mut Vec<Site>, w: &WordRef<'_>) -> Result<(), AllocError>
    requires { IsWord (lent_word w.now) }
    ensures { OnOk result (sites.new.items ≡ sites.old.items ++ sites_in (lent_word w.now)) }
{
    let size = w.signs.len();
    'positions: for p in 0..size {
        let hyphen = u8::from(w.hyphens[p]);
        sites.push(Site {
            left: 2 * (size - p) as u8 + hyphen,
        })?;
    }
    Ok(())
}

/// What stands at each sign of the words of a store.
pub(crate) fn sites_of(alloc: Global, store: &Store) -> Result<Vec<Site>, AllocError>
    requires { IsSound store.now }
    ensures { IfOk result (λ sites. sites.items ≡ all_sites (stored_words store.now)) }
{
    let mut sites = Vec::with_capacity(alloc, store.signs.len())?;
    'words: for i in 0..store.words.len() {
        let word = store.words[i];
        push_sites(&mut sites, &store.lend(word))?;
    }
    Ok(sites)
}
