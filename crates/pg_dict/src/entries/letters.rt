//! The reading of a word, behind its first letter, into the columns of the store.
ghost use Rattle.std.specs.Prelude.{◌≡◌, ◌<◌, ◌≤◌, ◌+◌, ◌-◌, length, OnOk};
ghost use Rattle.pg_dict.specs.Inside.Lines.ReadColumns.{columns_behind};
ghost use Rattle.pg_dict.specs.Inside.Store.{columns_of, IsFit};
ghost use Rattle.pg_types.specs.Inside.reading.Answers.{Gives};
ghost use Rattle.pg_types.specs.declared.limits.TheConstants.{WEIGHT_MAX};
ghost use Rattle.pg_types.specs.declared.marks.Mark.TheVariants.{Nothing};
ghost use Rattle.pg_translate.specs.Alphabets.{letters_of};
ghost use Rattle.pg_dict.specs.Inside.Lines.Steps.{IsStep, AddsSigns};

use crate::entries::line::{Line, kind_of};
use crate::store::Store;
use crate::store::position::Position;
use pg_translate::{Item, Place};
use pg_types::{EDGE, Kind, ReadingError, WORD_LETTERS_MAX, Weight};

/// Where the reading of a word stands, behind its first letter.
#[derive(Clone, Copy)]
pub(crate) struct WordReading<'a> {
    /// What is known of the next position.
    pub position: Position,
    /// How many letters may still come.
    pub room: usize,
    pub rest: &'a [u8],
}

impl<'a> WordReading<'a> {
    /// Right behind the first letter of a word of this weight.
    fn behind_the_first(weight: Weight, rest: &'a [u8]) -> WordReading<'a>
        requires { weight ≤ WEIGHT_MAX }
        ensures mark { result.position.mark ≡ Nothing }
        ensures weight { result.position.weight ≡ weight }
        ensures room { result.room ≡ WORD_LETTERS_MAX - 1 }
        ensures rest { result.rest.now ≡ rest.now }
    {
        WordReading {
            position: Position::plain(weight),
            room: WORD_LETTERS_MAX - 1,
            rest,
        }
    }
}

impl Line<'_> {
    /// Reads the next item of a word: where the reading then stands, or none at the word's end.
    /// After an error nothing is said of the columns.
    fn take<'a>(
        &self,
        store: &mut Store,
        at: WordReading<'a>,
    ) -> Result<Option<WordReading<'a>>, ReadingError>
        requires within { length at.rest.now ≤ self.now.size }
        requires fit { IsFit (letters_of self.now.table.now + 1) store.old }
        ensures step { IsStep self.now at.entry (columns_of store.old)
            (columns_of store.new) result }
        ensures words { store.new.words.items ≡ store.old.words.items }
        ensures fit { OnOk result (IsFit (letters_of self.now.table.now + 1) store.new) }
        ensures counted { AddsSigns at.entry (length store.old.signs.items)
            (length store.new.signs.items) result }
    {
        let WordReading {
            position,
            room,
            rest,
        } = at;
        match self.table.item(Place::Dictionary, rest) {
            Item::Letter(sign, after) => {
                if room == 0 {
                    return Err(self.refuse(Kind::WordTooLong, rest).into());
                }
                store.push(position, sign)?;
                Ok(Some(WordReading {
                    position: Position::plain(self.weight),
                    room: room - 1,
                    rest: after,
                }))
            }
            Item::Digit(number, after) => Ok(Some(WordReading {
                position: position.with_number(Weight::from(number)),
                room,
                rest: after,
            })),
            Item::Weight(weight, after) => Ok(Some(WordReading {
                position: position.with_number(weight),
                room,
                rest: after,
            })),
            Item::Mark(mark, after) => Ok(Some(WordReading {
                position: position.with_mark(mark),
                room,
                rest: after,
            })),
            Item::Edge(_) => unreachable!(),
            Item::End => {
                store.push(Position::plain(self.weight), EDGE)?;
                Ok(None)
            }
            Item::Bad => Err(self.refuse(kind_of(rest), rest).into()),
        }
    }

    /// Reads the rest of a word, behind its first letter, into the columns. After an error nothing
    /// is said of the columns.
    pub(crate) fn fill(&self, store: &mut Store, rest: &[u8]) -> Result<(), ReadingError>
        requires within { length rest.now ≤ self.now.size }
        requires fit { IsFit (letters_of self.now.table.now + 1) store.old }
        ensures fills { Gives (λ _. columns_of store.new) result
            (columns_behind self.now rest.now (columns_of store.old)) }
        ensures words { store.new.words.items ≡ store.old.words.items }
        ensures fit { OnOk result (IsFit (letters_of self.now.table.now + 1) store.new) }
        ensures counted { OnOk result (let n = length store.old.signs.items in
            (length store.new.signs.items ≤ n + WORD_LETTERS_MAX)
            × (length store.new.signs.items ≤ n + length rest.now + 1)) }
    {
        let mut at = WordReading::behind_the_first(self.weight, rest);
        'items: while let Some(next) = self.take(store, at)? {
            at = next;
        }
        Ok(())
    }
}
