//! What `pack` writes and prints.
ghost use Rattle.std.specs.Prelude.{◌≡◌, ◌+◌, ◌∷◌, [], IfOk};
ghost use Rattle.pg_outside.specs.Content.{FilesShown};
ghost use Rattle.pg_patterns.specs.Inside.PatternMaps.{SignsUpTo};
ghost use Rattle.pg_translate.specs.Alphabets.{letters_of};
ghost use Rattle.pg_patterns.specs.Texts.{pattern_text};
ghost use Rattle.pg_steps.specs.Inside.Steps.{Begins};
ghost use Rattle.pg_steps.specs.Inside.Texts.{ending_of, writing_of};
ghost use Rattle.pg_top.specs.Packing.{packed_line as packed_line_of};
ghost use Rattle.pg_top.specs.Inside.Plans.{end_of_pack};
ghost use Rattle.pg_top.specs.Inside.Packed.{stop_of_table};
ghost use Rattle.pg_types.specs.Lines.{lines};
ghost use Rattle.pg_table.specs.Texts.{table_text as table_text_of};
ghost use Rattle.pg_top.specs.Promises.{IsGoodTable};

use crate::printed::count_lines;
use pg_patterns::PatternSet;
use pg_steps::{BuiltTexts, Input, Stop, push_file, refuse};
use pg_table::{TableError, table_text};
use pg_translate::Table;
use pg_types::{Kind, Refusal, push_number};
use pg_watch::{RefusedFile, Watch};
use std::alloc::{AllocError, Global};

/// Why `pack` stops where no table is made.
fn table_stop<'a, W: Watch>(error: TableError, name: &str, letters: &Table, watch: &W) -> Stop<'a>
    ensures { result ≡ stop_of_table error }
{
    match error {
        TableError::TooLong => {
            let refusal = Refusal {
                kind: Kind::TableTooLong,
                line: 0,
                column: 0,
            };
            let refused = RefusedFile {
                name,
                bytes: &[],
                refusal,
                letters: Some(letters),
            };
            refuse(Input::Table, &refused, watch)
        }
        TableError::Memory => Stop::Memory,
    }
}

/// The line where `pack` is done: how many lines the pattern file has, and how many bytes the
/// table.
pub fn packed_line(alloc: Global, patterns: &[u8], table: &[u8]) -> Result<Vec<u8>, AllocError>
    ensures { IfOk result (λ line. line.items ≡ packed_line_of patterns.now table.now) }
{
    let mut line = Vec::new(alloc);
    push_number(&mut line, b"packed: ", count_lines(patterns) as u64)?;
    push_number(&mut line, b" patterns, ", table.len() as u64)?;
    line.extend_from_slice(b" bytes\n")?;
    Ok(line)
}

/// What `pack` writes and prints, where this is the table.
fn write_table<'a>(
    alloc: Global,
    name: &'a str,
    text: Vec<u8>,
    table: &Table,
    patterns: &PatternSet,
) -> Result<BuiltTexts<'a>, AllocError>
    requires { SignsUpTo (letters_of table.now + 1) patterns.now }
    ensures files { IfOk result
        (λ made. writing_of made.files.items ≡ (name.now, text.items) ∷ []) }
    ensures lines { IfOk result (λ made.
        made.lines.items ≡ packed_line_of (pattern_text table.now patterns.now) text.items) }
{
    let patterns = patterns.text(alloc, table)?;
    let lines = packed_line(alloc, &patterns, &text)?;
    let mut files = Vec::new(alloc);
    push_file(&mut files, name, text)?;
    Ok(BuiltTexts { files, lines })
}

/// Builds the table, and all that `pack` writes and prints.
pub fn make_table<'a, W: Watch>(
    alloc: Global,
    name: &'a str,
    table: &Table,
    patterns: &PatternSet,
    watch: &W,
) -> Result<BuiltTexts<'a>, Stop<'a>>
    requires { SignsUpTo (letters_of table.now + 1) patterns.now }
    ensures made { (files : FilesShown)
        → Begins (end_of_pack name.now table.now patterns.now) result ending_of files files }
    ensures good { IfOk result (λ _. IsGoodTable table.now patterns.now
        (table_text_of (letters_of table.now + 1) patterns.now)) }
{
    match table_text(alloc, table.letters() + 1, patterns) {
        Ok(text) => {
            let outputs = write_table(alloc, name, text, table, patterns)?;
            Ok(outputs)
        }
        Err(error) => Err(table_stop(error, name, table, watch)),
    }
}
