//! The index of the spellings by their prefixes: it finds the spelling that begins a text, and
//! clashes, in a look-up for each byte.
ghost use Rattle.std.specs.Prelude.{◌≡◌, ℕ, ◌+◌, ◌<◌, ◌≤◌, false, ◌++◌, ◌==◌, if◌then◌else◌, ◌∷◌, [], List, length, MatchOption, IfSome, IfOk, OnOk, Some, None, slice_get, map};
ghost use Rattle.std.specs.List.{list_any, flat_map, range_with_len};
ghost use Rattle.pg_translate.specs.declared.head.TheConstants.{A_TO_Z};
ghost use Rattle.pg_translate.specs.Inside.tables.Checks.{default_letter};
ghost use Rattle.std.specs.Option.{option_or};
ghost use Rattle.pg_translate.specs.Spellings.{clash};
ghost use Rattle.pg_translate.specs.Inside.spellings.FirstSpellings.{first_spelling, letters_in};
ghost use Rattle.pg_translate.specs.Inside.items.Kinds.{letter_at};
ghost use Rattle.pg_translate.specs.Tokens as token;
ghost use Rattle.pg_translate.specs.Inside.spellings.Fronts.{pairs, firsts_of, front_at, front_code, front_of, AreBytes, IsIndex};

use crate::head::A_TO_Z;
use crate::spellings::{SPELLING_MAX, Text};
use pg_types::Sign;
use std::alloc::{AllocError, Global};
use std::collections::HashMap;

/// What a prefix of spellings is.
#[derive(Clone, Copy)]
pub(crate) enum Front {
    /// It is a proper prefix of one or more spellings, and no whole one.
    Inside,
    /// A whole spelling of the letter with this sign.
    Whole(Sign),
}

impl Front {
    /// The front of `size` bytes of a spelling that has `length` bytes.
    fn of_size(sign: Sign, size: usize, length: usize) -> Front
        ensures { result ≡ (if size == length then Front.Whole sign else Front.Inside) }
    {
        if size == length {
            Front::Whole(sign)
        } else {
            Front::Inside
        }
    }
}

/// A spelling, and the sign of its letter.
#[derive(Clone, Copy)]
pub(crate) struct Spelling {
    sign: Sign,
    text: Text,
}

/// The spellings of a table.
#[derive(Drop)]
pub(crate) struct Index {
    /// All spellings, in the order of the file. A spelling that is repeated for its letter stands
    /// here twice. Only contracts read them. Look-ups use the fields below.
    spellings: Vec<Spelling>,
    /// The first spelling of each letter, in the order of signs.
    firsts: Vec<Text>,
    /// The prefixes of one byte, by that byte.
    heads: [Option<Front>; 256],
    /// The longer prefixes. The key is the number whose digits in base 256 are a 1 and then the
    /// bytes. Whether spellings can be chosen so that the map gets slow was not looked at.
    longer: HashMap<u128, Front>,
}

impl Index {
    /// No spelling.
    pub(crate) fn new(alloc: Global) -> Index
        ensures spellings { pairs result ≡ [] }
        ensures sound { IsIndex result }
    {
        Index {
            spellings: Vec::new(alloc),
            firsts: Vec::new(alloc),
            heads: [None; 256],
            longer: HashMap::new(alloc),
        }
    }

    /// The number of letters.
    pub(crate) fn letters(&self) -> usize
        ensures { result ≡ length self.now.firsts.items }
    {
        self.firsts.len()
    }

    /// The first spelling of the letter with a sign.
    pub(crate) fn first(&self, sign: Sign) -> &[u8]
        requires sound { IsIndex self.now }
        requires low { 2 ≤ sign }
        requires high { sign ≤ letters_in (pairs self.now) + 1 }
        ensures value { result.now ≡ first_spelling (pairs self.now) sign }
        ensures size { (0 < length result.now) × (length result.now ≤ SPELLING_MAX) }
    {
        self.firsts[sign as usize - 2].as_bytes()
    }

    /// The front with a code.
    #[inline]
    fn front(&self, code: u128) -> Option<Front>
        requires { 256 ≤ code }
        ensures { result ≡ front_at self.now code }
    {
        if code < 512 {
            self.heads[(code - 256) as usize]
        } else {
            self.longer.get(&code).copied()
        }
    }

    /// The letter whose spelling begins `text`, with the size of that spelling.
    #[inline]
    pub(crate) fn letter(&self, text: &[u8]) -> Option<(Sign, usize)>
        requires { IsIndex self.now }
        ensures letter { MatchOption result (letter_at (pairs self.now) text.now ≡ None)
            (λ l. letter_at (pairs self.now) text.now ≡ Some (token.Letter l.0, l.1)) }
        ensures sign { IfSome result (λ l. (1 < l.0) × (l.0 ≤ letters_in (pairs self.now) + 1)) }
        ensures within { IfSome result (λ l. (0 < l.1) × (l.1 ≤ length text.now)) }
    {
        let mut code = 1;
        'bytes: for i in 0..text.len().min(SPELLING_MAX) {
            code = code * 256 + text[i] as u128;
            match self.front(code) {
                None => return None,
                Some(Front::Inside) => {}
                Some(Front::Whole(sign)) => return Some((sign, i + 1)),
            }
        }
        None
    }

    /// Whether a spelling of the letter with this sign would clash with one that is here.
    pub(crate) fn clashes(&self, sign: Sign, text: &[u8]) -> bool
        requires sound { IsIndex self.now }
        requires some { 0 < length text.now }
        requires few { length text.now ≤ SPELLING_MAX }
        ensures { result ≡ list_any (clash (sign, text.now)) (pairs self.now) }
    {
        let mut code = 1;
        'bytes: for i in 0..text.len() {
            code = code * 256 + text[i] as u128;
            match self.front(code) {
                None => return false,
                Some(Front::Inside) => {}
                Some(Front::Whole(other)) => return i + 1 < text.len() || other != sign,
            }
        }
        true
    }

    /// Sets the front with a code.
    fn set_front(&mut self, code: u128, front: Front) -> Result<(), AllocError>
        requires { 256 ≤ code }
        ensures front { OnOk result ((other : ℕ) → 256 ≤ other → front_at self.new other
            ≡ (if other == code then Some front else front_at self.old other)) }
        ensures spellings { self.new.spellings ≡ self.old.spellings }
        ensures firsts { self.new.firsts ≡ self.old.firsts }
    {
        if code < 512 {
            self.heads[(code - 256) as usize] = Some(front);
        } else {
            self.longer.insert(code, front)?;
        }
        Ok(())
    }

    /// Enters all fronts of a spelling.
    fn enter(&mut self, sign: Sign, text: &[u8]) -> Result<(), AllocError>
        requires { length text.now ≤ SPELLING_MAX }
        ensures fronts { OnOk result
            ((q : List ℕ) → AreBytes q → 0 < length q → front_at self.new (front_code q)
            ≡ option_or (front_of (sign, text.now) q) (front_at self.old (front_code q))) }
        ensures spellings { self.new.spellings ≡ self.old.spellings }
        ensures firsts { self.new.firsts ≡ self.old.firsts }
    {
        let mut code = 1;
        'bytes: for i in 0..text.len() {
            code = code * 256 + text[i] as u128;
            self.set_front(code, Front::of_size(sign, i + 1, text.len()))?;
        }
        Ok(())
    }

    /// Keeps the first spelling of a new letter.
    fn keep_first(&mut self, sign: Sign, text: Text) -> Result<(), AllocError>
        ensures firsts { OnOk result (self.new.firsts.items
            ≡ (if sign == length self.old.firsts.items + 2
            then self.old.firsts.items ++ text ∷ [] else
            self.old.firsts.items)) }
        ensures spellings { self.new.spellings ≡ self.old.spellings }
        ensures heads { self.new.heads ≡ self.old.heads }
        ensures longer { self.new.longer ≡ self.old.longer }
    {
        if sign as usize == self.firsts.len() + 2 {
            self.firsts.push(text)?;
        }
        Ok(())
    }

    /// Adds a spelling of the last letter, or the first one of a new letter.
    pub(crate) fn add(&mut self, sign: Sign, text: &[u8]) -> Result<(), AllocError>
        requires sound { IsIndex self.old }
        requires some { 0 < length text.now }
        requires few { length text.now ≤ SPELLING_MAX }
        requires apart { list_any (clash (sign, text.now)) (pairs self.old) ≡ false }
        requires low { letters_in (pairs self.old) + 1 ≤ sign }
        requires high { sign ≤ letters_in (pairs self.old) + 2 }
        requires letter { 2 ≤ sign }
        ensures spellings { OnOk result (pairs self.new ≡ pairs self.old ++ (sign, text.now) ∷ []) }
        ensures sound { OnOk result (IsIndex self.new) }
    {
        self.enter(sign, text)?;
        let text = Text::of(text);
        self.keep_first(sign, text)?;
        self.spellings.push(Spelling { sign, text })?;
        Ok(())
    }

    /// Adds a small letter of ASCII by its number, counted from 0 for a, and its capital.
    fn add_default(&mut self, n: u8) -> Result<(), AllocError>
        requires number { n < A_TO_Z }
        requires sound { IsIndex self.old }
        requires before { pairs self.old ≡ flat_map default_letter (range_with_len 0 n) }
        ensures spellings { OnOk result
            (pairs self.new ≡ flat_map default_letter (range_with_len 0 (n + 1))) }
        ensures sound { OnOk result (IsIndex self.new) }
    {
        let sign = n as Sign + 2;
        self.add(sign, &[b'a' + n])?;
        self.add(sign, &[b'A' + n])?;
        Ok(())
    }

    /// The letters a to z, each with its capital as its second spelling.
    pub(crate) fn default_letters(alloc: Global) -> Result<Index, AllocError>
        ensures spellings { IfOk result
            (λ index. pairs index ≡ flat_map default_letter (range_with_len 0 A_TO_Z)) }
        ensures sound { IfOk result IsIndex }
    {
        let mut index = Index::new(alloc);
        'letters: for n in 0..A_TO_Z {
            index.add_default(n)?;
        }
        Ok(index)
    }
}
