//! The arguments of `sample`.
ghost use Rattle.std.specs.Prelude.{◌≡◌, IfSome};
ghost use Rattle.std.specs.Option.{option_map};
ghost use Rattle.pg_words.specs.Inside.Requests.{ToSample};
ghost use Rattle.pg_words.specs.Inside.forms.Sample.{sample_in};
ghost use Rattle.pg_words.specs.Inside.Names.{arguments_of};
ghost use Rattle.pg_words.specs.Inside.CommandRequests.{asked_by, KeepsLimits};

use crate::commands::Command;
use crate::limits::{COUNT_MAX, SAMPLE_DIGITS, SEED_MAX};
use crate::numbers::number_within;

/// What the arguments behind `sample` ask for.
pub fn sample(words: &[String]) -> Option<Command<'_>>
    ensures value { option_map asked_by result
        ≡ option_map (λ n. ToSample n.0 n.1) (sample_in (arguments_of words.now)) }
    ensures within { IfSome result KeepsLimits }
{
    let [seed, count] = words else {
        return None;
    };
    let seed = number_within(seed.as_str(), SAMPLE_DIGITS, 0, SEED_MAX)?;
    let count = number_within(count.as_str(), SAMPLE_DIGITS, 0, COUNT_MAX)?;
    Some(Command::Sample(seed, count))
}
