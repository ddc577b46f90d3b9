//! A packed table that is read, and the totals by it.
ghost use Rattle.std.specs.Prelude.{◌≡◌, ◌+◌, IfOk, []};
ghost use Rattle.pg_types.specs.ValuesOrRefusals.{refusal_at};
ghost use Rattle.pg_dict.specs.Inside.SoundWords.{SignsAtMost};
ghost use Rattle.pg_driver.specs.Inside.records.SoundRecords.{IsSmall};
ghost use Rattle.pg_plans.specs.Plans.{Ending};
ghost use Rattle.pg_plans.specs.declared.answers.Status.TheVariants.{Done};
ghost use Rattle.pg_texts.specs.ReportTexts.{ending_text};
ghost use Rattle.pg_translate.specs.Alphabets.{letters_of};
ghost use Rattle.pg_steps.specs.InputPlans.{input as input_plan};
ghost use Rattle.pg_steps.specs.Inside.Steps.{Begins};
ghost use Rattle.pg_top.specs.Totalling.{packed_table};
ghost use Rattle.pg_top.specs.Inside.Totalled.{totals_end};

use pg_dict::Dictionary;
use pg_outside::Files;
use pg_steps::{Input, Stop, read_front, refuse};
use pg_table::{TableView, table_totals};
use pg_texts::push_ending;
use pg_translate::Table;
use pg_types::packed_table::TABLE_MAX;
use pg_types::{Kind, Refusal, Totals};
use pg_watch::{RefusedFile, Watch};
use std::alloc::{AllocError, Global};

/// The refusal of a packed table, which has no place.
fn refusal_of(kind: Kind) -> Refusal
    ensures { result ≡ refusal_at 0 kind 0 }
{
    Refusal {
        kind,
        line: 0,
        column: 0,
    }
}

/// The packed table in these bytes for the letters of a table, or why it is refused.
fn open_table<'a>(bytes: &'a [u8], table: &Table) -> Result<TableView<'a>, Refusal>
    ensures { result ≡ packed_table table.now bytes.now }
{
    if bytes.len() > TABLE_MAX {
        return Err(refusal_of(Kind::TableTooLong));
    }
    let Some(view) = TableView::read(bytes) else {
        return Err(refusal_of(Kind::BadTable));
    };
    if view.signs() == table.letters() + 1 {
        Ok(view)
    } else {
        Err(refusal_of(Kind::OtherTable))
    }
}

/// The line of totals, and that of the rates.
fn total_lines(alloc: Global, totals: &Totals) -> Result<Vec<u8>, AllocError>
    requires { IsSmall totals.now }
    ensures { IfOk result (λ lines. lines.items ≡ ending_text totals.now) }
{
    let mut lines = Vec::new(alloc);
    push_ending(&mut lines, totals)?;
    Ok(lines)
}

/// Reads a packed table and gives the lines of the totals of the words by it.
pub fn total_by<'a, F: Files, W: Watch>(
    alloc: Global,
    table: &Table,
    dictionary: &Dictionary,
    name: &'a str,
    files: &mut F,
    watch: &W,
) -> Result<Vec<u8>, Stop<'a>>
    requires { SignsAtMost (letters_of table.now + 1) dictionary.now }
    ensures { Begins (input_plan Input.Table name.now (packed_table table.now)
        (totals_end table.now dictionary.now)) result (λ lines. Ending Done [] lines.items)
        (F.shown files.old) (F.shown files.new) }
{
    let bytes = read_front(alloc, name, TABLE_MAX, files, watch)?;
    match open_table(&bytes, table) {
        Ok(view) => {
            let lines = total_lines(alloc, &table_totals(&view, dictionary, table))?;
            Ok(lines)
        }
        Err(refusal) => {
            let refused = RefusedFile {
                name,
                bytes: &bytes,
                refusal,
                letters: Some(table),
            };
            Err(refuse(Input::Table, &refused, watch))
        }
    }
}
