//! The one call of the program.
ghost use Rattle.std.specs.Prelude.{◌≡◌, Some, map, string_bytes};
ghost use Rattle.pg_plans.specs.Plans.{Follows};
ghost use Rattle.pg_words.specs.Inside.CommandRequests.{asked_by, KeepsLimits};
ghost use Rattle.pg_top.specs.Commands.{plan_of, IsRun, CallsNoFile};
ghost use Rattle.pg_top.specs.Inside.Keeping.{KeepsPromise};
ghost use Rattle.pg_top.specs.Inside.Requests.{plan_by};
ghost use Rattle.pg_top.specs.Promises.{IsPromised};

use crate::audit::audit;
use crate::generate::generate_files;
use crate::pack::pack_files;
use crate::printed::USAGE;
use crate::prune::prune_files;
use crate::sample::sample;
use crate::sweep::sweep_files;
use crate::totals::total_files;
use pg_outside::{Files, Sink};
use pg_plans::Status;
use pg_steps::{answer, end};
use pg_watch::{Quiet, Watch};
use pg_words::{Command, PackNames, PruneNames, TotalsNames, command};
use std::alloc::Global;

/// Does what a command asks for.
fn perform<F: Files, O: Sink, W: Watch>(
    alloc: Global,
    command: &Command<'_>,
    files: &mut F,
    out: &mut O,
    watch: &W,
) -> Status
    requires { KeepsLimits command.now }
    ensures follows { Follows (plan_by (asked_by command.now)) result
        (F.shown files.old, O.shown out.old) (F.shown files.new, O.shown out.new) }
    ensures uncalled { CallsNoFile (Some (plan_by (asked_by command.now)))
        → files.new ≡ files.old }
    ensures promised { result ≡ Status.Done
        → KeepsPromise (asked_by command.now) (F.shown files.old) (F.shown files.new) }
{
    let built = match *command {
        Command::Generate(names) => generate_files(alloc, &names, files, watch),
        Command::Audit(names) => return audit(alloc, &names, files, out, watch),
        Command::Sample(seed, count) => return sample(alloc, seed, count, out, watch),
        Command::Pack {
            patterns,
            translate,
            table,
        } => {
            let names = PackNames::new(patterns, translate, table);
            pack_files(alloc, &names, files, watch)
        }
        Command::Totals {
            dict,
            translate,
            table,
        } => {
            let names = TotalsNames::new(dict, translate, table);
            total_files(alloc, &names, files, watch)
        }
        Command::Prune {
            dict,
            patterns,
            output,
            translate,
            report,
        } => {
            let names = PruneNames::new(dict, patterns, output, translate, report);
            prune_files(alloc, &names, files, watch)
        }
        Command::Sweep(words) => sweep_files(alloc, &words, files, watch),
    };
    end(alloc, built, files, out, watch)
}

/// Does what the arguments, without the program's name, ask for. It reads and writes `files`,
/// prints to `out`, and gives the answer.
///
/// `generate` reads the translate file, the parameters, the starting patterns and the dictionary.
/// Each is read whole and by its rules before the next. It selects patterns and builds all texts.
/// Then it writes the pattern file, the hyphenated list and the cells file where they are asked
/// for, and the report, and prints. From the first write on it takes no memory. `audit` reads the
/// same and builds the texts with another engine. It reads and compares the given files one after
/// the other, up to the first false line. `sample` makes a dictionary from a number and prints how
/// a selection on it goes.
///
/// `pack` reads the translate file and the patterns, and writes their packed table. `totals` reads
/// the translate file, the dictionary and the packed table, and prints the totals of the words by
/// the table, which it reads in place. `prune` reads the translate file, the patterns and the
/// dictionary. It takes out the entries that change no break of a word, writes the rest, and then a
/// report of the first position that needs each. `sweep` reads the translate file, the parameter
/// files, the starting patterns and the dictionary. It makes a run for each parameter file and
/// fold, writes what they come to as a JSON object, and prints which file is the cheapest.
///
/// The first refusal ends a call, and so does the first fault. All lines of an answer are put at
/// once, as the last step. Only the line of a fault is put in three parts: the front, the name and
/// the end. Where one of them cannot be put, no other follows.
///
/// - `Usage` comes exactly where the arguments are no command, unless the line cannot be put.
/// - `Refused` comes only where an input is refused, the first in the order of reading, or where
///   the table of `pack` would be too long. `sample` is never refused.
/// - `Fault` comes only where the read faults of a name that the command reads, the write faults of
///   one that it writes, or the faults of `out` rose.
/// - `Memory` may always come where the arguments are a command. Nothing was written then, and
///   nothing was put.
/// - `Yes` comes where all given files are what they should be. `No` comes where a line is not, and
///   that line was named.
/// - `Done` comes where all that was asked for was written whole.
///
/// After all answers but `Done` and `Fault` the files are as they were. Where the arguments are no
/// command, and for `sample`, `files` is not called.
pub fn run<F: Files, O: Sink>(alloc: Global, words: &[String], files: &mut F, out: &mut O) -> Status
    ensures follows { IsRun (map string_bytes words.now) result
        (F.shown files.old, O.shown out.old) (F.shown files.new, O.shown out.new) }
    ensures uncalled { CallsNoFile (plan_of (map string_bytes words.now))
        → files.new ≡ files.old }
    ensures promised { IsPromised (map string_bytes words.now) result
        (F.shown files.old) (F.shown files.new) }
{
    run_watched(alloc, words, files, out, &Quiet)
}

/// Does what `run` does, and tells the observer of it. The observer is told which file is read or
/// written, and which is refused and where. It is told where a selection, a pass, a run of `sweep`
/// or a round of `prune` begins, and which line of a given file is false.
pub fn run_watched<F: Files, O: Sink, W: Watch>(
    alloc: Global,
    words: &[String],
    files: &mut F,
    out: &mut O,
    watch: &W,
) -> Status
    ensures follows { IsRun (map string_bytes words.now) result
        (F.shown files.old, O.shown out.old) (F.shown files.new, O.shown out.new) }
    ensures uncalled { CallsNoFile (plan_of (map string_bytes words.now))
        → files.new ≡ files.old }
    ensures promised { IsPromised (map string_bytes words.now) result
        (F.shown files.old) (F.shown files.new) }
{
    match command(words) {
        None => answer(out, USAGE, Status::Usage, watch),
        Some(command) => perform(alloc, &command, files, out, watch),
    }
}
