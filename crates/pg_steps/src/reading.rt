//! The readers of the input files.
ghost use Rattle.std.specs.Prelude.{◌≡◌, ◌+◌, ◌-◌, ◌<◌, ◌^◌, IfOk};
ghost use Rattle.pg_translate.specs.Alphabets.{letters_of};
ghost use Rattle.pg_dict.specs.Inside.SoundWords.{SignsAtMost};
ghost use Rattle.pg_patterns.specs.Inside.PatternMaps.{SignsUpTo};
ghost use Rattle.pg_types.specs.Parameters.{parameters};
ghost use Rattle.pg_translate.specs.Tables.{table as table_of_file};
ghost use Rattle.pg_dict.specs.DictionaryWords.{words};
ghost use Rattle.pg_patterns.specs.Starts.{start};
ghost use Rattle.pg_steps.specs.InputPlans.{input as input_plan};
ghost use Rattle.pg_steps.specs.Inside.Steps.{Gives, ReadsFront};
ghost use Rattle.pg_steps.specs.Inside.Accepting.{accepted_as};

use crate::inputs::{Input, Stop};
use pg_dict::Dictionary;
use pg_outside::{Files, ReadError};
use pg_patterns::PatternSet;
use pg_translate::Table;
use pg_types::{FILE_MAX, Params, ReadingError, read_params};
use pg_watch::{RefusedFile, Watch};
use std::alloc::Global;

/// Reads a file as a whole, or its first `limit + 1` bytes where it is longer than `limit` bytes.
pub fn read_front<'a, F: Files, W: Watch>(
    alloc: Global,
    name: &'a str,
    limit: usize,
    files: &mut F,
    watch: &W,
) -> Result<Vec<u8>, Stop<'a>>
    requires { limit < 2 ^ 64 - 1 }
    ensures { ReadsFront name.now limit result (F.shown files.old) (F.shown files.new) }
{
    watch.reads(name);
    let mut bytes = Vec::new(alloc);
    match files.read(alloc, name, limit, &mut bytes) {
        Ok(()) => Ok(bytes),
        Err(ReadError::TooLong) => Ok(bytes),
        Err(ReadError::Failed) => Err(Stop::Unread(name)),
        Err(ReadError::Memory) => Err(Stop::Memory),
    }
}

/// Why a command stops where this input breaks its rules. The observer is told of it.
pub fn refuse<'a, W: Watch>(input: Input, refused: &RefusedFile<'_>, watch: &W) -> Stop<'a>
    ensures { result ≡ Stop.Refused input refused.now.refusal }
{
    watch.refuses(refused);
    Stop::Refused(input, refused.refusal)
}

/// What a reader gave of this input, or why a command stops there.
fn accept<'a, T, W: Watch>(
    read: Result<T, ReadingError>,
    input: Input,
    name: &str,
    bytes: &[u8],
    letters: Option<&Table>,
    watch: &W,
) -> Result<T, Stop<'a>>
    ensures { result ≡ accepted_as input read }
{
    match read {
        Ok(value) => Ok(value),
        Err(ReadingError::Refused(refusal)) => {
            let refused = RefusedFile {
                name,
                bytes,
                refusal,
                letters,
            };
            Err(refuse(input, &refused, watch))
        }
        Err(ReadingError::Memory) => Err(Stop::Memory),
    }
}

/// Reads the translate file. The observer is told that it gave the letters, or that it is refused.
pub fn read_table<'a, F: Files, W: Watch>(
    alloc: Global,
    name: &'a str,
    files: &mut F,
    watch: &W,
) -> Result<Table, Stop<'a>>
    ensures { Gives (input_plan Input.Translate name.now table_of_file) result
        (F.shown files.old) (F.shown files.new) }
{
    let bytes = read_front(alloc, name, FILE_MAX, files, watch)?;
    let read = Table::read(alloc, &bytes);
    if read.is_ok() {
        watch.letters(name);
    }
    accept(read, Input::Translate, name, &bytes, None, watch)
}

/// Reads parameters as this input.
pub fn read_parameters<'a, F: Files, W: Watch>(
    alloc: Global,
    input: Input,
    name: &'a str,
    files: &mut F,
    watch: &W,
) -> Result<Params, Stop<'a>>
    ensures { Gives (input_plan input name.now parameters) result
        (F.shown files.old) (F.shown files.new) }
{
    let bytes = read_front(alloc, name, FILE_MAX, files, watch)?;
    let read = read_params(alloc, &bytes);
    accept(read, input, name, &bytes, None, watch)
}

/// Reads a pattern file under a table.
pub fn read_patterns<'a, F: Files, W: Watch>(
    alloc: Global,
    table: &Table,
    name: &'a str,
    files: &mut F,
    watch: &W,
) -> Result<PatternSet, Stop<'a>>
    ensures read { Gives (input_plan Input.Patterns name.now (start table.now)) result
        (F.shown files.old) (F.shown files.new) }
    ensures known { IfOk result (SignsUpTo (letters_of table.now + 1)) }
{
    let bytes = read_front(alloc, name, FILE_MAX, files, watch)?;
    let read = PatternSet::read(alloc, table, &bytes);
    if read.is_ok() {
        watch.patterns(name, &bytes);
    }
    accept(read, Input::Patterns, name, &bytes, Some(table), watch)
}

/// Reads the dictionary under a table.
pub fn read_dictionary<'a, F: Files, W: Watch>(
    alloc: Global,
    table: &Table,
    name: &'a str,
    files: &mut F,
    watch: &W,
) -> Result<Dictionary, Stop<'a>>
    ensures read { Gives (input_plan Input.Dictionary name.now (words table.now)) result
        (F.shown files.old) (F.shown files.new) }
    ensures signs { IfOk result (SignsAtMost (letters_of table.now + 1)) }
{
    let bytes = read_front(alloc, name, FILE_MAX, files, watch)?;
    let read = Dictionary::read(alloc, table, &bytes);
    if let Ok(dictionary) = &read {
        watch.words(name, dictionary, table);
    }
    accept(read, Input::Dictionary, name, &bytes, Some(table), watch)
}
