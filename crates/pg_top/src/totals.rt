//! `totals`: the totals of a dictionary by a packed table.
ghost use Rattle.pg_steps.specs.Inside.Steps.{Begins};
ghost use Rattle.pg_steps.specs.Inside.Texts.{ending_of};
ghost use Rattle.pg_top.specs.Inside.Plans.{plan_of_totals};

mod table;

use crate::totals::table::total_by;
use pg_outside::Files;
use pg_steps::{BuiltTexts, Stop, read_dictionary, read_table};
use pg_watch::Watch;
use pg_words::TotalsNames;
use std::alloc::Global;

/// Reads what `totals` reads, and builds the lines that it prints. It writes no file.
pub fn total_files<'a, F: Files, W: Watch>(
    alloc: Global,
    names: &TotalsNames<'a>,
    files: &mut F,
    watch: &W,
) -> Result<BuiltTexts<'a>, Stop<'a>>
    ensures { Begins (plan_of_totals names.now.dict.now names.now.translate.now names.now.table.now)
        result ending_of (F.shown files.old) (F.shown files.new) }
{
    let letters = read_table(alloc, names.translate, files, watch)?;
    let dictionary = read_dictionary(alloc, &letters, names.dict, files, watch)?;
    let lines = total_by(alloc, &letters, &dictionary, names.table, files, watch);
    drop(dictionary);
    drop(letters);
    let lines = lines?;
    Ok(BuiltTexts {
        files: Vec::new(alloc),
        lines,
    })
}
