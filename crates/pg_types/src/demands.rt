//! What is due at each item of a parameters file, and the first item that is not what is due.
ghost use Rattle.std.specs.Prelude.{◌≡◌, ◌<◌, ◌≤◌, ◌+◌, nat_le, nat_lt, if◌then◌else◌, None, Some, MatchOption, MatchResult, IfOk, OnOk, length, drop, option_map};
ghost use Rattle.pg_types.specs.declared.limits.TheConstants.{FILE_MAX};
ghost use Rattle.pg_types.specs.Parameters.{items as items_of, parameters};
ghost use Rattle.pg_types.specs.Inside.reading.Demands.{first_due, due_with, level_begun, numbers_ended, due_behind, is_end, unmet_end, unmet_from, item_fault, first_number, refusal_of, surplus};

use crate::items::{Items, next_item};
use crate::limits::{COST_MAX, ITEMS_MAX, LENGTH_MAX, LEVEL_MAX};
use crate::refusals::Refusal;

/// What an item of a parameters file tells.
#[derive(Clone, Copy, Debug, PartialEq, Eq)]
pub enum Parameter {
    /// The first level.
    FirstLevel,
    /// The last level.
    LastLevel,
    /// The least length of a window.
    LeastLength,
    /// The greatest length of a window.
    GreatestLength,
    /// The good weight.
    GoodWeight,
    /// The bad weight.
    BadWeight,
    /// The threshold.
    Threshold,
    /// The file should end. One answer of patgen's last question may stand before.
    Answer,
}

/// What is due at an item of a parameters file.
#[derive(Clone, Copy, Debug, PartialEq, Eq)]
pub struct Due {
    /// What the item tells.
    pub parameter: Parameter,
    /// The first level; 0 where it is not known yet.
    pub first: u8,
    /// The last level; 0 where it is not known yet.
    pub last: u8,
    /// The level of which it is told.
    pub level: u8,
    /// The least number that may stand there.
    pub least: u32,
    /// The greatest number that may stand there.
    pub greatest: u32,
}

/// An item of a parameters file that is not what is due.
#[derive(Clone, Copy, Debug)]
pub struct Unmet<'a> {
    /// The refusal of the file.
    pub refusal: Refusal,
    /// What is due.
    pub due: Due,
    /// The rest of the file from the item on. Separators may stand before the item.
    pub rest: &'a [u8],
}

impl Due {
    /// What is due at the first item.
    pub fn first() -> Due
        ensures { result ≡ first_due }
    {
        Due {
            parameter: Parameter::FirstLevel,
            first: 0,
            last: 0,
            level: 0,
            least: 1,
            greatest: u32::from(LEVEL_MAX),
        }
    }

    /// Another number of the same level.
    fn with(&self, parameter: Parameter, least: u32, greatest: u32) -> Due
        ensures { result ≡ due_with self.now parameter least greatest }
    {
        Due {
            parameter,
            first: self.first,
            last: self.last,
            level: self.level,
            least,
            greatest,
        }
    }

    /// What is due where the level begins.
    fn level_begun(&self) -> Due
        ensures { result ≡ level_begun self.now }
    {
        self.with(Parameter::LeastLength, 1, u32::from(LENGTH_MAX))
    }

    /// What is due behind all numbers.
    fn numbers_ended(&self) -> Due
        ensures { result ≡ numbers_ended self.now }
    {
        self.with(Parameter::Answer, 0, 0)
    }

    /// What is due behind the first level, `level`.
    fn behind_first(&self, level: u8) -> Due
        ensures { result ≡ record (due_with self.now Parameter.LastLevel 1 LEVEL_MAX)
            { first = level; level = level } }
    {
        let due = self.with(Parameter::LastLevel, 1, u32::from(LEVEL_MAX));
        Due {
            first: level,
            level,
            ..due
        }
    }

    /// What is due behind the last level, `last`.
    fn behind_last(&self, last: u8) -> Due
        ensures { let known = record self.now { last = last } in
            result ≡ (if nat_le self.now.level last then level_begun known
            else numbers_ended known) }
    {
        let known = Due { last, ..*self };
        if self.level <= last {
            known.level_begun()
        } else {
            known.numbers_ended()
        }
    }

    /// What is due behind the numbers of a level.
    fn behind_level(&self) -> Due
        ensures { result ≡ (if nat_lt self.now.level self.now.last
            then level_begun (record self.now { level = self.now.level + 1 })
            else numbers_ended self.now) }
    {
        if self.level < self.last {
            let next = Due {
                level: self.level + 1,
                ..*self
            };
            next.level_begun()
        } else {
            self.numbers_ended()
        }
    }

    /// What is due behind this number.
    pub fn behind(&self, number: u32) -> Due
        ensures { result ≡ due_behind self.now.parameter self.now number }
    {
        let level = number.min(u32::from(LEVEL_MAX)) as u8;
        match self.parameter {
            Parameter::FirstLevel => self.behind_first(level),
            Parameter::LastLevel => self.behind_last(level),
            Parameter::LeastLength => {
                self.with(Parameter::GreatestLength, number, u32::from(LENGTH_MAX))
            }
            Parameter::GreatestLength => self.with(Parameter::GoodWeight, 1, COST_MAX),
            Parameter::GoodWeight => self.with(Parameter::BadWeight, 1, COST_MAX),
            Parameter::BadWeight => self.with(Parameter::Threshold, 1, COST_MAX),
            Parameter::Threshold => self.behind_level(),
            Parameter::Answer => *self,
        }
    }

    /// Whether no number is due any more.
    pub fn is_end(&self) -> bool
        ensures { result ≡ is_end self.now.parameter }
    {
        matches!(self.parameter, Parameter::Answer)
    }
}

/// Takes the number that is due, or refuses the item.
fn take_due(items: &mut Items<'_>, due: &Due) -> Result<u32, Refusal>
    requires range { due.now.greatest ≤ COST_MAX }
    requires item_number { items.old.item_number < ITEMS_MAX }
    ensures value { IfOk result (λ n. first_number (items_of items.old.rest.now) ≡ Some n) }
    ensures low { IfOk result (λ n. due.now.least ≤ n) }
    ensures high { IfOk result (λ n. n ≤ due.now.greatest) }
    ensures rest { OnOk result
        (items_of items.new.rest.now ≡ drop 1 (items_of items.old.rest.now)) }
    ensures item_number { OnOk result (items.new.item_number ≡ items.old.item_number + 1) }
    ensures fault { let fault = item_fault (due.now.least, due.now.greatest) items.old.item_number
        (items_of items.old.rest.now) in
        MatchResult result (λ _. fault ≡ None) (λ refusal. fault ≡ Some refusal) }
{
    items.number(due.least, due.greatest)
}

/// The bytes behind the first item.
fn behind_item(rest: &[u8]) -> &[u8]
    ensures { items_of result.now ≡ drop 1 (items_of rest.now) }
{
    match next_item(rest) {
        Some((_, after)) => after,
        None => rest,
    }
}

/// Why the items that are left may not follow all numbers; none where they may.
fn refused_end(items: &Items<'_>) -> Option<Refusal>
    requires { items.now.item_number ≤ ITEMS_MAX }
    ensures { result ≡ surplus items.now.item_number (items_of items.now.rest.now) }
{
    match items.end() {
        Ok(()) => None,
        Err(refusal) => Some(refusal),
    }
}

/// The first item behind all numbers that may not follow.
fn unmet_end<'a>(items: &Items<'a>, due: Due) -> Option<Unmet<'a>>
    requires { items.now.item_number ≤ ITEMS_MAX }
    ensures { let unmet = unmet_end items.now.item_number due (items_of items.now.rest.now) in
        MatchOption result (unmet ≡ None)
        (λ u. unmet ≡ Some (u.refusal, u.due, items_of u.rest.now)) }
{
    match refused_end(items) {
        None => None,
        Some(refusal) => {
            let rest = if refusal.line == items.item_number {
                items.rest
            } else {
                behind_item(items.rest)
            };
            Some(Unmet { refusal, due, rest })
        }
    }
}

/// The first item of a parameters file that is not what is due. It is none exactly where
/// `read_params` accepts a file that is not too long, and else has its refusal.
pub fn first_unmet(bytes: &[u8]) -> Option<Unmet<'_>>
    ensures unmet { let unmet = unmet_from (items_of bytes.now) 1 first_due in
        MatchOption result (unmet ≡ None)
        (λ u. unmet ≡ Some (u.refusal, u.due, items_of u.rest.now)) }
    ensures reader { length bytes.now ≤ FILE_MAX
        → refusal_of (parameters bytes.now) ≡ option_map (λ u. u.refusal) result }
{
    let mut items = Items::new(bytes);
    let mut due = Due::first();
    'items: while !due.is_end() {
        let rest = items.rest;
        match take_due(&mut items, &due) {
            Ok(number) => due = due.behind(number),
            Err(refusal) => return Some(Unmet { refusal, due, rest }),
        }
    }
    unmet_end(&items, due)
}
