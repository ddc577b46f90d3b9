//! A refused parameters file: what is due at its items.

mod behind;

use crate::chars::up_to;
use crate::refused::more::{MORE_MAX, push_count};
use crate::refused::parameters::behind::refused_behind;
use crate::wrong::RefusalCase;
use pg_types::{COST_MAX, Due, Kind, Parameter, Unmet, first_unmet, next_item};
use pg_visible::Part::{Count, Name, Say, Show};
use pg_visible::{Spot, Text};
use std::alloc::AllocError;

/// A refused item of a parameters file.
#[derive(Clone, Copy)]
pub(crate) struct RefusedItem<'a> {
    name: &'a str,
    bytes: &'a [u8],
    unmet: Unmet<'a>,
    /// Its place. Where it is missing, it is the place behind the last item.
    pub(crate) spot: Spot<'a>,
}

/// The line and the column of what follows these bytes.
fn place_behind(before: &[u8]) -> (usize, usize) {
    let mut line = 1_usize;
    let mut column = 1_usize;
    for byte in before {
        column = column.saturating_add(1);
        if *byte == b'\n' {
            line = line.saturating_add(1);
            column = 1;
        }
    }
    (line, column)
}

/// The place of an item.
fn item_spot<'a>(bytes: &'a [u8], unmet: &Unmet<'_>) -> Spot<'a> {
    let behind = match next_item(unmet.rest) {
        Some((item, after)) => item.len().saturating_add(after.len()),
        None => unmet.rest.len(),
    };
    let (line, column) = place_behind(up_to(bytes, bytes.len().saturating_sub(behind)));
    Spot::new(bytes, line, column)
}

/// The name of what an item tells.
fn name_of(parameter: Parameter) -> &'static str {
    match parameter {
        Parameter::FirstLevel => "the first level",
        Parameter::LastLevel => "the last level",
        Parameter::LeastLength => "the least length",
        Parameter::GreatestLength => "the greatest length",
        Parameter::GoodWeight => "the good weight",
        Parameter::BadWeight => "the bad weight",
        Parameter::Threshold => "the threshold",
        Parameter::Answer => "an answer",
    }
}

/// What is said of a refused item. `is_of_level` says that it tells something of a level.
fn due_sentence(kind: Kind, is_of_level: bool) -> &'static str {
    match (kind, is_of_level) {
        (Kind::Missing, false) => "item $0 is missing: $2 is due, $4 to $5",
        (Kind::Missing, true) => "item $0 is missing: $2 of level $3 is due, $4 to $5",
        (Kind::BadNumber, false) => "item $0 is $1, which is no number: $2 is due, $4 to $5",
        (Kind::BadNumber, true) => {
            "item $0 is $1, which is no number: $2 of level $3 is due, $4 to $5"
        }
        (_, false) => "item $0 is $1, which is out of range: $2 is due, $4 to $5",
        (_, true) => "item $0 is $1, which is out of range: $2 of level $3 is due, $4 to $5",
    }
}

/// How many levels are run from the first to the last.
fn levels_of(due: &Due) -> usize {
    let behind = usize::from(due.last).saturating_add(1);
    behind.saturating_sub(usize::from(due.first))
}

/// How many items there are.
pub(crate) fn items_in(bytes: &[u8]) -> usize {
    let mut rest = bytes;
    for count in 0..bytes.len() {
        match next_item(rest) {
            Some((_, after)) => rest = after,
            None => return count,
        }
    }
    bytes.len()
}

impl<'a> RefusedItem<'a> {
    /// The refused item of a file; none where it is refused for something else.
    pub(crate) fn of(refused: &RefusalCase<'a>) -> Option<RefusedItem<'a>> {
        match refused.refusal.kind {
            Kind::BadNumber | Kind::OutOfRange | Kind::Missing | Kind::Extra => {
                let unmet = first_unmet(refused.bytes)?;
                Some(RefusedItem {
                    name: refused.name,
                    bytes: refused.bytes,
                    unmet,
                    spot: item_spot(refused.bytes, &unmet),
                })
            }
            _ => None,
        }
    }

    /// Its number, from 1.
    fn number(&self) -> usize {
        self.unmet.refusal.line as usize
    }

    /// Its bytes; nothing where it is missing.
    fn bytes(&self) -> &'a [u8] {
        match next_item(self.unmet.rest) {
            Some((item, _)) => item,
            None => b"",
        }
    }

    /// How many levels the file has, and how many numbers are due for them.
    fn levels_and_numbers(&self) -> (usize, usize) {
        let levels = levels_of(&self.unmet.due);
        (levels, levels.saturating_mul(5).saturating_add(2))
    }

    /// Whether it tells something of a level. The levels are then known.
    fn is_of_level(&self) -> bool {
        !matches!(
            self.unmet.due.parameter,
            Parameter::FirstLevel | Parameter::LastLevel
        )
    }

    /// Appends which number is due in its place.
    fn push_due(&self, text: &mut Text) -> Result<(), AllocError> {
        let due = &self.unmet.due;
        let most = if due.greatest == COST_MAX {
            Say("1,000,000")
        } else {
            Count(due.greatest as usize)
        };
        let parts = [
            Count(self.number()),
            Show(self.bytes()),
            Say(name_of(due.parameter)),
            Count(usize::from(due.level)),
            Count(due.least as usize),
            most,
        ];
        let sentence = due_sentence(self.unmet.refusal.kind, self.is_of_level());
        text.place(self.name, &self.spot, sentence, &parts)
    }

    /// Appends that it may not follow.
    fn push_extra(&self, text: &mut Text) -> Result<(), AllocError> {
        let (levels, numbers) = self.levels_and_numbers();
        let sentence = if levels == 1 {
            "item $0 is $1, and the file should end: $2 level takes $3 numbers, and one y or n may follow"
        } else {
            "item $0 is $1, and the file should end: $2 levels take $3 numbers, and one y or n may follow"
        };
        let parts = [
            Count(self.number()),
            Show(self.bytes()),
            Count(levels),
            Count(numbers),
        ];
        text.place(self.name, &self.spot, sentence, &parts)
    }

    /// Appends why it is refused, and what is due there.
    pub(crate) fn push_reason(&self, text: &mut Text) -> Result<(), AllocError> {
        if self.unmet.due.is_end() {
            return self.push_extra(text);
        }
        self.push_due(text)
    }

    /// Appends how many numbers the file should have, where it has fewer.
    fn push_numbers(&self, text: &mut Text) -> Result<(), AllocError> {
        let has = items_in(self.bytes);
        if has < 2 {
            let sentence =
                "$0 begins with the first level and the last, as 1 3, and has five numbers for each level";
            return text.line(sentence, &[Name(self.name)]);
        }
        let (levels, numbers) = self.levels_and_numbers();
        if !self.is_of_level() || numbers <= has {
            return Ok(());
        }
        let sentence = if levels == 1 {
            "$0 level takes $1 numbers, and $2 has $3"
        } else {
            "$0 levels take $1 numbers, and $2 has $3"
        };
        let parts = [Count(levels), Count(numbers), Name(self.name), Count(has)];
        text.line(sentence, &parts)
    }

    /// Appends how many more items of the file would be refused. Where it has fewer numbers than it
    /// should, it appends how many it should have.
    pub(crate) fn push_more(&self, text: &mut Text) -> Result<(), AllocError> {
        if self.unmet.refusal.kind != Kind::Missing {
            let more = refused_behind(&self.unmet, self.is_of_level());
            push_count(text, self.name, "item", more, more < MORE_MAX)?;
        }
        self.push_numbers(text)
    }
}
