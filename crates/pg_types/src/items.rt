//! The items of a parameters file, taken one after the other.
ghost use Rattle.std.specs.Prelude.{◌≡◌, ◌<◌, ◌≤◌, ◌+◌, ◌∷◌, [], length, min, option_map, IfOk, OnOk, IfErr, MatchOption, Some, not, drop, position};
ghost use Rattle.std.specs.List.{position_or_len};
ghost use Rattle.pg_types.specs.ValuesOrRefusals.{refusal_at};
ghost use Rattle.pg_types.specs.Inside.reading.ItemSteps.{HasNothing, HasSurplus, RefusesLevel, RefusesNumber, TakesLevel, TakesNumber, is_separator as is_separator_byte};
ghost use Rattle.pg_types.specs.Inside.reading.Demands.{first_number};
ghost use Rattle.pg_types.specs.Numbers.{number};
ghost use Rattle.pg_types.specs.Parameters.{items, is_answer as is_answer_item};
ghost use Rattle.pg_types.specs.Inside.Ranges.{IsLevel};

use crate::limits::{COST_MAX, ITEMS_MAX, LENGTH_MAX};
use crate::parameters::LevelParams;
use crate::refusals::{Kind, Refusal};

/// A greater number is read as this one, which is out of every range. So no number overflows.
const TOO_GREAT: u32 = COST_MAX + 1;

/// Whether the byte stands between items.
pub fn is_separator(byte: u8) -> bool
    ensures { result ≡ is_separator_byte byte }
{
    matches!(byte, b' ' | b'\t' | b'\r' | b'\n')
}

/// How many separators stand in front.
fn separators_len(rest: &[u8]) -> usize
    ensures { result ≡ position_or_len (λ b. not (is_separator_byte b)) rest.now }
{
    first_item_byte(rest).unwrap_or(rest.len())
}

/// Where the first byte that is no separator stands.
fn first_item_byte(rest: &[u8]) -> Option<usize>
    ensures { result ≡ position (λ b. not (is_separator_byte b)) rest.now }
{
    rest.iter().position(|byte| !is_separator(*byte))
}

/// How many bytes stand before the first separator.
fn item_len(rest: &[u8]) -> usize
    ensures { result ≡ position_or_len is_separator_byte rest.now }
{
    first_separator(rest).unwrap_or(rest.len())
}

/// Where the first separator stands.
fn first_separator(rest: &[u8]) -> Option<usize>
    ensures { result ≡ position is_separator_byte rest.now }
{
    rest.iter().position(|byte| is_separator(*byte))
}

/// The first item of `rest` and what follows it; none where only separators are left.
pub fn next_item(rest: &[u8]) -> Option<(&[u8], &[u8])>
    ensures { MatchOption result (items rest.now ≡ [])
        (λ r. items rest.now ≡ r.0.now ∷ items r.1.now) }
{
    let (_, rest) = rest.split_at(separators_len(rest));
    if rest.is_empty() {
        return None;
    }
    Some(rest.split_at(item_len(rest)))
}

/// The number that an item is, cut to `TOO_GREAT`; none where it is no number.
pub fn read_number(item: &[u8]) -> Option<u32>
    ensures { result ≡ option_map (λ n. min n TOO_GREAT) (number item.now) }
{
    let mut value = 0;
    for digit in item {
        if !digit.is_ascii_digit() {
            return None;
        }
        value = (value * 10 + u32::from(*digit - b'0')).min(TOO_GREAT);
    }
    Some(value)
}

/// Whether the item answers patgen's last question.
pub fn is_answer(item: &[u8]) -> bool
    ensures { result ≡ is_answer_item item.now }
{
    matches!(item, [b'y' | b'Y' | b'n' | b'N'])
}

/// The items that are left, and the number of the next, counted from 1.
#[derive(Clone, Copy)]
pub struct Items<'a> {
    pub(crate) rest: &'a [u8],
    pub(crate) item_number: u32,
}

impl<'a> Items<'a> {
    /// All items of a file.
    pub fn new(bytes: &'a [u8]) -> Items<'a>
        ensures rest { result.rest.now ≡ bytes.now }
        ensures item_number { result.item_number ≡ 1 }
    {
        Items {
            rest: bytes,
            item_number: 1,
        }
    }

    /// Takes a number from `least` to `greatest`, or refuses the item.
    pub fn number(&mut self, least: u32, greatest: u32) -> Result<u32, Refusal>
        requires range { greatest ≤ COST_MAX }
        requires item_number { self.old.item_number < ITEMS_MAX }
        ensures low { IfOk result (λ n. least ≤ n) }
        ensures high { IfOk result (λ n. n ≤ greatest) }
        ensures item_number { OnOk result (self.new.item_number ≡ self.old.item_number + 1) }
        ensures first { IfOk result (λ n. first_number (items self.old.rest.now) ≡ Some n) }
        ensures rest { OnOk result
            (items self.new.rest.now ≡ drop 1 (items self.old.rest.now)) }
        ensures taken { IfOk result (TakesNumber least greatest self.old self.new) }
        ensures refused { IfErr result (RefusesNumber least greatest self.old) }
    {
        let Some((item, rest)) = next_item(self.rest) else {
            return Err(self.refusal(Kind::Missing));
        };
        let Some(number) = read_number(item) else {
            return Err(self.refusal(Kind::BadNumber));
        };
        if number < least || greatest < number {
            return Err(self.refusal(Kind::OutOfRange));
        }
        self.rest = rest;
        self.item_number += 1;
        Ok(number)
    }

    /// Takes the five numbers of a level.
    pub fn level(&mut self) -> Result<LevelParams, Refusal>
        requires { self.old.item_number + 5 ≤ ITEMS_MAX }
        ensures ranges { IfOk result (λ level. IsLevel level) }
        ensures item_number { OnOk result (self.new.item_number ≡ self.old.item_number + 5) }
        ensures taken { IfOk result (TakesLevel self.old self.new) }
        ensures refused { IfErr result (RefusesLevel self.old) }
    {
        let pat_start = self.number(1, LENGTH_MAX as u32)?;
        let pat_finish = self.number(pat_start, LENGTH_MAX as u32)?;
        let good_wt = self.number(1, COST_MAX)?;
        let bad_wt = self.number(1, COST_MAX)?;
        let thresh = self.number(1, COST_MAX)?;
        Ok(LevelParams {
            pat_start: pat_start as u8,
            pat_finish: pat_finish as u8,
            good_wt,
            bad_wt,
            thresh,
        })
    }

    /// Refuses the first item too many. Only one answer of patgen's last question may be left: `y`,
    /// `Y`, `n` or `N`.
    pub fn end(&self) -> Result<(), Refusal>
        requires { self.now.item_number ≤ ITEMS_MAX }
        ensures passed { OnOk result (HasNothing self.now) }
        ensures refused { IfErr result (HasSurplus self.now) }
    {
        let Some((answer, rest)) = next_item(self.rest) else {
            return Ok(());
        };
        if !is_answer(answer) {
            return Err(self.refusal(Kind::Extra));
        }
        let behind = Items {
            rest,
            item_number: self.item_number + 1,
        };
        match next_item(behind.rest) {
            Some(_) => Err(behind.refusal(Kind::Extra)),
            None => Ok(()),
        }
    }

    /// The refusal of the next item.
    fn refusal(&self, kind: Kind) -> Refusal
        ensures { result ≡ refusal_at self.now.item_number kind 0 }
    {
        Refusal {
            kind,
            line: self.item_number,
            column: 0,
        }
    }
}
