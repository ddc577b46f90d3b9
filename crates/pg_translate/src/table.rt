//! The table of a translate file.
ghost use Rattle.std.specs.Prelude.{◌≡◌, ◌==◌, IfOk};
ghost use Rattle.pg_translate.specs.Alphabets.{Alphabet};
ghost use Rattle.pg_translate.specs.Inside.tables.SoundTables.{IsTable, alphabet_in};

pub mod laws;

use crate::head::{Head, MINIMUM_MAX};
use crate::index::Index;
use crate::items::{Item, Place};
use crate::reading::{read_letters, refusal};
use crate::spellings::SPELLING_MAX;
use crate::weights::weight_of;
use pg_types::{EDGE, FILE_MAX, Kind, Mark, ReadingError, SIGNS_MAX, Sign, next_line};
use std::alloc::{AllocError, Global};
use std::marker::Model;

/// The minima, the mark bytes, and the letters with their spellings.
#[derive(Drop)]
pub struct Table {
    head: Head,
    index: Index,
}

/// Whether a byte of a pattern line is the edge: a dot.
#[inline]
fn is_edge(byte: u8) -> bool
    ensures { result ≡ (byte == 46) }
{
    byte == b'.'
}

impl Model for Table {
    ghost Value = { Alphabet };

    ghost view = { λ t. alphabet_in t.head t.index };

    ghost invariant = { λ t. IsTable t.head t.index };
}

impl Table {
    ghost use Rattle.std.specs.Prelude.{◌≡◌, ◌+◌, ◌-◌, ◌<◌, ◌≤◌, true, false, length, MatchOption, IfSome, IfOk, Some, None};
    ghost use Rattle.pg_translate.specs.Alphabets.{letters_of, spelling_of};
    ghost use Rattle.pg_translate.specs.Inside.items.MarkBytes.{mark_byte_of};
    ghost use Rattle.pg_translate.specs.Inside.tables.Rules.{KeepsRules};
    ghost use Rattle.pg_types.specs.Inside.reading.Answers.{Gives};
    ghost use Rattle.pg_translate.specs.Tables.{default_alphabet, table};
    ghost use Rattle.pg_translate.specs.Tokens.{is_ended};
    ghost use Rattle.pg_translate.specs.Inside.items.Kinds.{letter_at, mark_at};
    ghost use Rattle.pg_translate.specs.Tokens as token;
    ghost use Rattle.pg_translate.specs.Inside.items.Answers.{IsFirstItem, IsInRange};
    ghost use Rattle.pg_translate.specs.Reach.{reach};
    ghost use Rattle.pg_types.specs.declared.limits.TheConstants.{WORD_LETTERS_MAX};

    /// The default table: the minima 2 and 3, the marks `.`, `-`, `*` and `?`, and the letters a to
    /// z, each with its capital as its second spelling.
    pub fn default_letters(alloc: Global) -> Result<Table, AllocError>
        ensures { IfOk result (λ table. table ≡ default_alphabet) }
    {
        let head = Head::defaults();
        let index = Index::default_letters(alloc)?;
        Ok(Table { head, index })
    }

    /// The table of a translate file, or the first place at which its rules refuse it. A file of no
    /// bytes means the default table. A lack of memory is an error of its own.
    pub fn read(alloc: Global, bytes: &[u8]) -> Result<Table, ReadingError>
        ensures { Gives (λ t. t) result (table bytes.now) }
    {
        let Some((first, rest)) = next_line(bytes) else {
            return Ok(Table::default_letters(alloc)?);
        };
        if bytes.len() > FILE_MAX {
            return Err(refusal(Kind::TranslateTooLong, 0, 0));
        }
        let head = Head::read(first)?;
        let index = read_letters(alloc, &head.marks(), rest)?;
        Ok(Table { head, index })
    }

    /// The number of letters, less than [`SIGNS_MAX`](pg_types::SIGNS_MAX), since the edge is a
    /// sign too.
    pub fn letters(&self) -> u16
        ensures value { result ≡ letters_of self.now }
        ensures few { result ≤ SIGNS_MAX - 1 }
    {
        self.index.letters() as u16
    }

    /// The left minimum, 1 to [`MINIMUM_MAX`].
    pub fn left(&self) -> u8
        ensures value { result ≡ self.now.left }
        ensures range { (0 < result) × (result ≤ MINIMUM_MAX) }
    {
        self.head.left
    }

    /// The right minimum, 1 to [`MINIMUM_MAX`].
    pub fn right(&self) -> u8
        ensures value { result ≡ self.now.right }
        ensures range { (0 < result) × (result ≤ MINIMUM_MAX) }
    {
        self.head.right
    }

    /// The first spelling of the letter with a sign, and a dot for the edge.
    pub fn spelling(&self, s: Sign) -> &[u8]
        requires low { 1 ≤ s }
        requires high { s ≤ letters_of self.now + 1 }
        ensures value { result.now ≡ spelling_of self.now s }
        ensures size { (0 < length result.now) × (length result.now ≤ SPELLING_MAX) }
    {
        if s == EDGE { b"." } else { self.index.first(s) }
    }

    /// The byte that the head of the translate file, or a default, gives to this status. `Nothing`
    /// has none, and may not be asked for.
    pub fn mark_byte(&self, m: Mark) -> u8
        requires { ¬ (m ≡ Mark.Nothing) }
        ensures { result ≡ mark_byte_of self.now m }
    {
        match m {
            Mark::Nothing => unreachable!(),
            Mark::Error => self.head.error,
            Mark::Missed => self.head.missed,
            Mark::Found => self.head.found,
            Mark::DontCare => self.head.dont_care,
        }
    }

    /// The first and the last position in reach of a word of `signs` signs, its edges included.
    /// There is none where such a word takes no part, as it has fewer letters than both minima
    /// together.
    pub fn reach(&self, signs: usize) -> Option<(usize, usize)>
        requires low { 2 ≤ signs }
        requires high { signs ≤ WORD_LETTERS_MAX + 2 }
        ensures value { result ≡ reach self.now.left self.now.right signs }
        ensures between { IfSome result (λ r. (2 ≤ r.0) × (r.0 ≤ r.1) × (r.1 + 2 ≤ signs)) }
    {
        let left = self.head.left as usize;
        let right = self.head.right as usize;
        if left + right + 2 <= signs {
            Some((left + 1, signs - right - 1))
        } else {
            None
        }
    }

    /// The letter whose spelling begins `text`, with the size of that spelling.
    #[inline]
    fn letter(&self, text: &[u8]) -> Option<(Sign, usize)>
        ensures letter { MatchOption result (letter_at self.now.spellings text.now ≡ None)
            (λ l. letter_at self.now.spellings text.now ≡ Some (token.Letter l.0, l.1)) }
        ensures sign { IfSome result (λ l. (1 < l.0) × (l.0 ≤ letters_of self.now + 1)) }
        ensures within { IfSome result (λ l. (0 < l.1) × (l.1 ≤ length text.now)) }
        ensures begun { IfSome result (λ _. is_ended text.now ≡ false) }
        ensures rules { KeepsRules self.now }
    {
        self.index.letter(text)
    }

    /// The mark whose byte begins `text`.
    #[inline]
    fn mark(&self, text: &[u8]) -> Option<Mark>
        requires { 0 < length text.now }
        ensures mark { MatchOption result (mark_at self.now.marks text.now ≡ None)
            (λ m. mark_at self.now.marks text.now ≡ Some (token.Marked m, 1)) }
        ensures begun { IfSome result (λ _. is_ended text.now ≡ false) }
    {
        let byte = text[0];
        if byte == self.head.error {
            Some(Mark::Error)
        } else if byte == self.head.missed {
            Some(Mark::Missed)
        } else if byte == self.head.found {
            Some(Mark::Found)
        } else if byte == self.head.dont_care {
            Some(Mark::DontCare)
        } else {
            None
        }
    }

    /// The item that begins `rest`, a line of a file of this kind or what is left of it, and what
    /// follows that item.
    ///
    /// `End` comes exactly where the line ends here, or a blank or TAB stands here. `Bad` comes
    /// exactly where no item stands here and the line does not end. Letters have signs 2 to
    /// `letters` + 1, digits are 0 to 9, and weights 1 to [`WEIGHT_MAX`](pg_types::WEIGHT_MAX).
    /// Marks and weights come only in a dictionary, and `Edge` only in patterns.
    #[inline]
    pub fn item<'a>(&self, place: Place, rest: &'a [u8]) -> Item<'a>
        ensures item { IsFirstItem self.now place rest.now result }
        ensures end { is_ended rest.now ≡ true → result ≡ Item.End }
        ensures range { IsInRange self.now result }
    {
        if let Some((sign, size)) = self.letter(rest) {
            return Item::Letter(sign, &rest[size..]);
        }
        if rest.is_empty() {
            return Item::End;
        }
        let byte = rest[0];
        if byte.is_ascii_digit() {
            return Item::Digit(byte - b'0', &rest[1..]);
        }
        match place {
            Place::Dictionary => {
                if let Some((weight, size)) = weight_of(rest) {
                    return Item::Weight(weight, &rest[size..]);
                }
                if let Some(mark) = self.mark(rest) {
                    return Item::Mark(mark, &rest[1..]);
                }
            }
            Place::Patterns => {
                if is_edge(byte) {
                    return Item::Edge(&rest[1..]);
                }
            }
        }
        if byte == b' ' || byte == b'\t' {
            Item::End
        } else {
            Item::Bad
        }
    }
}
