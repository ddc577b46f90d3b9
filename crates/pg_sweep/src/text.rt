//! The file of a sweep.
ghost use Rattle.std.specs.Prelude.{◌≡◌, map, IfOk};
ghost use Rattle.serde_json.specs.View.{view};
ghost use Rattle.pg_sweep.specs.Files.{sweep_file};
ghost use Rattle.pg_sweep.specs.Inside.SweepData.{row_data, rows_data, sweep_data};

use crate::found::Sweep;
use crate::rows::SweepRow;
use serde_json::{Value, json};
use std::alloc::{AllocError, Global};

/// The object of a row with this number.
fn row_value(alloc: Global, set: usize, row: &SweepRow) -> Result<Value, AllocError>
    ensures { IfOk result (λ value. view value ≡ row_data set row.now) }
{
    json!(in alloc; {
        "bad": row.totals.bad,
        "cost": row.cost,
        "good": row.totals.good,
        "missed": row.totals.missed,
        "set": set
    })
}

/// The objects of all rows.
fn row_values(alloc: Global, rows: &[SweepRow]) -> Result<Vec<Value>, AllocError>
    ensures { IfOk result (λ values. map view values.items ≡ rows_data 1 rows.now) }
{
    let mut values = Vec::new(alloc);
    'rows: for i in 0..rows.len() {
        values.push(row_value(alloc, i + 1, &rows[i])?)?;
    }
    Ok(values)
}

/// The object of a sweep.
fn sweep_value(alloc: Global, folds: u8, sweep: &Sweep) -> Result<Value, AllocError>
    ensures { IfOk result (λ value. view value ≡ sweep_data folds sweep.now.rows sweep.now.winner) }
{
    let rows = Value::Array(row_values(alloc, sweep.rows())?);
    json!(in alloc; {
        "folds": folds,
        "rows": rows,
        "winner": sweep.winner()
    })
}

/// The file of a sweep with this number of folds: one JSON object in its compact form, and a line
/// feed.
pub fn sweep_text(alloc: Global, folds: u8, sweep: &Sweep) -> Result<Vec<u8>, AllocError>
    ensures { IfOk result (λ text. text.items ≡ sweep_file folds sweep.now.rows sweep.now.winner) }
{
    let value = sweep_value(alloc, folds, sweep)?;
    let mut text = value.to_string(alloc)?.into_bytes();
    text.push(b'\n')?;
    Ok(text)
}
