//! The arguments of `sweep`.
ghost use Rattle.std.specs.Prelude.{◌≡◌, true, IfSome};
ghost use Rattle.std.specs.Option.{option_map, is_some};
ghost use Rattle.pg_words.specs.Inside.Requests.{ToSweep};
ghost use Rattle.pg_words.specs.Inside.forms.Sweep.{sweep_in};
ghost use Rattle.pg_words.specs.Inside.Names.{arguments_of};
ghost use Rattle.pg_words.specs.Inside.CommandRequests.{asked_by, KeepsLimits};

use crate::commands::{Command, SweepWords};
use crate::limits::{FOLDS_DIGITS, PRICE_DIGITS};
use crate::numbers::number_within;
use pg_types::{FOLDS_MAX, FOLDS_MIN, PRICE_MAX, SETS_MAX};

/// What the arguments behind `sweep` ask for, where they are that command.
pub fn sweep(words: &[String]) -> Option<Command<'_>>
    ensures value { is_some (option_map ToSweep (sweep_in (arguments_of words.now))) ≡ true
        → option_map asked_by result ≡ option_map ToSweep (sweep_in (arguments_of words.now)) }
    ensures within { IfSome result KeepsLimits }
{
    let [
        dict,
        patterns,
        output,
        translate,
        folds,
        bad,
        missed,
        params @ ..,
    ] = words
    else {
        return None;
    };
    let folds = number_within(folds.as_str(), FOLDS_DIGITS, FOLDS_MIN, FOLDS_MAX)?;
    let bad = number_within(bad.as_str(), PRICE_DIGITS, 1, PRICE_MAX)?;
    let missed = number_within(missed.as_str(), PRICE_DIGITS, 1, PRICE_MAX)?;
    if params.is_empty() || params.len() > SETS_MAX {
        return None;
    }
    let (dict, patterns) = (dict.as_str(), patterns.as_str());
    let (output, translate) = (output.as_str(), translate.as_str());
    Some(Command::Sweep(SweepWords {
        dict,
        patterns,
        output,
        translate,
        folds: folds as u8,
        bad,
        missed,
        params,
    }))
}
