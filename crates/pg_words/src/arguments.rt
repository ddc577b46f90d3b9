//! The arguments of a command.
ghost use Rattle.std.specs.Prelude.{◌≡◌, ◌∷◌, true, IfSome};
ghost use Rattle.std.specs.Option.{option_map, is_some};
ghost use Rattle.pg_words.specs.Inside.Requests.{request_of};
ghost use Rattle.pg_words.specs.Inside.Names.{arguments_of};
ghost use Rattle.pg_words.specs.Inside.CommandRequests.{asked_by, KeepsLimits};

use crate::commands::Command;
use crate::generate::{audit, generate};
use crate::pack::pack;
use crate::prune::prune;
use crate::sample::sample;
use crate::slips::first_slip;
use crate::sweep::sweep;
use crate::totals::totals;

/// What the arguments behind the name of a command ask for, where they are that command.
fn command_of<'a>(name: &str, behind: &'a [String]) -> Option<Command<'a>>
    ensures value { is_some (request_of (name.now ∷ arguments_of behind.now)) ≡ true
        → option_map asked_by result ≡ request_of (name.now ∷ arguments_of behind.now) }
    ensures within { IfSome result KeepsLimits }
{
    if name == "generate" {
        generate(behind)
    } else if name == "audit" {
        audit(behind)
    } else if name == "sample" {
        sample(behind)
    } else if name == "pack" {
        pack(behind)
    } else if name == "totals" {
        totals(behind)
    } else if name == "prune" {
        prune(behind)
    } else if name == "sweep" {
        sweep(behind)
    } else {
        None
    }
}

/// What the arguments ask for, where they are a command.
fn made(words: &[String]) -> Option<Command<'_>>
    ensures value { is_some (request_of (arguments_of words.now)) ≡ true
        → option_map asked_by result ≡ request_of (arguments_of words.now) }
    ensures within { IfSome result KeepsLimits }
{
    match words {
        [name, behind @ ..] => command_of(name.as_str(), behind),
        [] => None,
    }
}

/// What the arguments, without the program's name, ask for; none exactly where they are no command.
/// It takes no memory. The commands are:
///
/// - `generate DICT PATTERNS OUT TRANSLATE PARAMS REPORT`, then `--pattmp FILE` and `--cells FILE`,
///   each at most once and in either order.
/// - `audit` with the same six names, and at most one `--pattmp FILE`.
/// - `sample N COUNT`.
/// - `pack PATTERNS TRANSLATE TABLE`.
/// - `totals DICT TRANSLATE TABLE`.
/// - `prune DICT PATTERNS OUT TRANSLATE REPORT`.
/// - `sweep DICT PATTERNS OUT TRANSLATE K BAD MISSED`, with the names of 1 to 16 parameter files.
pub fn command(words: &[String]) -> Option<Command<'_>>
    ensures value { option_map asked_by result ≡ request_of (arguments_of words.now) }
    ensures within { IfSome result KeepsLimits }
{
    match first_slip(words) {
        Some(_) => None,
        None => made(words),
    }
}
