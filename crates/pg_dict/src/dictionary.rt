//! The dictionary.
ghost use Rattle.std.specs.Prelude.{◌≡◌, ℕ, ◌<◌, ◌≤◌, ◌+◌, ◌-◌, ◌*◌, ◌&&◌, nat_le, length, take, Some, slice_get, IfOk, sum_by, All};
ghost use Rattle.pg_types.specs.Inside.reading.Answers.{Gives};
ghost use Rattle.pg_translate.specs.Alphabets as alphabet;
ghost use Rattle.pg_dict.specs.Inside.SoundWords.{letter_count, IsWord, SignsAtMost};
ghost use Rattle.pg_dict.specs.Word.{Word};
ghost use Rattle.pg_dict.specs.DictionaryWords.{words};
ghost use Rattle.pg_dict.specs.Inside.Sites.{all_sites};
ghost use Rattle.pg_dict.specs.Inside.Store.{all_signs, all_weights, stored_words, IsSound};
ghost use Rattle.pg_dict.specs.Inside.LentWords.{lent_word};
ghost use Rattle.pg_dict.specs.Parts.{part_of};
ghost use Rattle.pg_dict.specs.Inside.Parts.{is_in_part};

use crate::entries::read_line;
use crate::sites::{Site, sites_of};
use crate::store::Store;
use crate::word::WordRef;
use pg_translate::Table;
use pg_translate::laws::keeps_rules;
use pg_types::{FILE_MAX, Kind, ReadingError, Refusal, Sign, Weight, next_line};
use std::alloc::{AllocError, Global};
use std::marker::Model;

/// The words of a dictionary file, in its order. All of them lie in one store, and what stands at
/// their signs in one row.
///
/// Every word has 1 to [`WORD_LETTERS_MAX`](pg_types::WORD_LETTERS_MAX) letters and the two edges,
/// each sign at least 1, and weights of at most [`WEIGHT_MAX`](pg_types::WEIGHT_MAX). Together the
/// words have at most [`FILE_MAX`](pg_types::FILE_MAX) letters.
#[derive(Drop)]
pub struct Dictionary {
    store: Store,
    sites: Vec<Site>,
}

impl Model for Dictionary {
    ghost use Rattle.std.specs.Prelude.{List};
    ghost use Rattle.pg_dict.specs.Word.{Word};

    ghost Value = { List Word };

    ghost use Rattle.pg_dict.specs.Inside.Store.{stored_words, IsDictionary};

    ghost view = { λ d. stored_words d.store };

    ghost invariant = { λ d. IsDictionary d.store d.sites.items };
}

impl Dictionary {
    /// Reads a dictionary file under a table, in one pass.
    ///
    /// A file of more than [`FILE_MAX`](pg_types::FILE_MAX) bytes is refused 403. In any other, the
    /// first refused place, from line to line and left to right, is refused 401, 402 or 404. Such a
    /// place is a byte that begins no item, or the 101st letter of a line. The general form is
    /// patgen's. Weights in braces and the don't-care mark are PatGen's own. So are a TAB that ends
    /// a word, and the rule that the last mark and the last number at a position count.
    pub fn read(alloc: Global, table: &Table, bytes: &[u8]) -> Result<Dictionary, ReadingError>
        ensures words { Gives (λ dictionary. dictionary) result (words table.now bytes.now) }
        ensures signs { IfOk result (SignsAtMost (alphabet.letters_of table.now + 1)) }
    {
        if bytes.len() > FILE_MAX {
            return Err(Refusal {
                kind: Kind::DictionaryTooLong,
                line: 0,
                column: 0,
            }
            .into());
        }
        keeps_rules(table);
        let mut store = Store::new(alloc);
        let mut weight = 1;
        let mut number = 1;
        let mut rest = bytes;
        'lines: while let Some((text, after)) = next_line(rest) {
            weight = read_line(&mut store, table, number, weight, text)?;
            number += 1;
            rest = after;
        }
        let dictionary = with_sites(alloc, store)?;
        Ok(dictionary)
    }

    /// The number of words.
    pub fn len(&self) -> usize
        ensures len { result ≡ length self.now }
        ensures words { All IsWord self.now }
        ensures letters { sum_by letter_count self.now ≤ FILE_MAX }
    {
        self.store.words.len()
    }

    /// The word with the number `i`, counted from 0.
    pub fn word(&self, i: usize) -> WordRef<'_>
        requires { i < length self.now }
        ensures lent { slice_get self.now i ≡ Some (lent_word result) }
        ensures word { IsWord (lent_word result) }
    {
        let word = self.store.words[i];
        self.store.lend(word)
    }

    /// The signs of all words, edges included, joined in the order of the words: one slice of the
    /// store.
    pub fn all_signs(&self) -> &[Sign]
        ensures { result.now ≡ all_signs self.now }
    {
        self.store.signs.as_slice()
    }

    /// For each sign of `all_signs`, the weight of the position before it: one slice of the store.
    pub fn all_weights(&self) -> &[Weight]
        ensures { result.now ≡ all_weights self.now }
    {
        self.store.weights.as_slice()
    }

    /// What stands at each sign of all words, in the order of `all_signs`. It takes no memory.
    pub fn all_sites(&self) -> &[Site]
        ensures { result.now ≡ all_sites self.now }
    {
        self.sites.as_slice()
    }

    /// Whether a window of `len` signs lies in the word of the sign with the index `sign` in
    /// `all_signs`. It begins `back` signs before that sign.
    ///
    /// The site of the window's first sign says how many signs of its word are left there. If the
    /// window would begin in an earlier word, fewer are left than `back + 1`.
    pub fn fits_around(&self, sign: usize, back: u8, len: u8) -> bool
        requires { sign < length (all_signs self.now) }
        ensures { (n p : ℕ) (w : Word) → slice_get self.now n ≡ Some w → p < length w.signs
            → sign ≡ length (all_signs (take n self.now)) + p
            → result ≡ (nat_le back p && nat_le (p - back + len) (length w.signs)) }
    {
        let before = usize::from(back);
        if sign < before {
            return false;
        }
        let left = usize::from(self.sites[sign - before].left);
        let needed = usize::from(len).max(before + 1);
        2 * needed <= left
    }

    /// The words of a fold where `inside`, else all other words, in their order. Words are counted
    /// from 0, and a fold has the words whose number leaves the remainder `fold` when it is divided
    /// by `folds`. Each word keeps its weight.
    pub fn part(
        &self,
        alloc: Global,
        folds: u8,
        fold: u8,
        inside: bool,
    ) -> Result<Dictionary, AllocError>
        requires { fold < folds }
        ensures words { IfOk result (λ part. part ≡ part_of folds fold inside self.now) }
    {
        let mut store = Store::new(alloc);
        'words: for i in 0..self.len() {
            let word = self.word(i);
            if belongs(folds, fold, inside, i) {
                store.push_word(&word)?;
            }
        }
        with_sites(alloc, store)
    }
}

/// A dictionary of the words of a store.
fn with_sites(alloc: Global, store: Store) -> Result<Dictionary, AllocError>
    requires sound { IsSound store }
    requires few { length store.signs.items ≤ FILE_MAX + 2 * length store.words.items }
    ensures { IfOk result (λ dictionary. dictionary ≡ stored_words store) }
{
    let sites = sites_of(alloc, &store)?;
    Ok(Dictionary { store, sites })
}

/// Whether the word with the number `i` is in the fold where `inside`, and out of it else.
fn belongs(folds: u8, fold: u8, inside: bool, i: usize) -> bool
    requires { fold < folds }
    ensures { result ≡ is_in_part folds fold inside i }
{
    let is_in_fold = i % usize::from(folds) == usize::from(fold);
    if inside { is_in_fold } else { !is_in_fold }
}
