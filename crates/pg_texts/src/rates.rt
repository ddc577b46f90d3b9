//! Totals and their rates.
ghost use Rattle.std.specs.Prelude.{◌≡◌, ◌++◌, ◌+◌, ◌*◌, ◌/◌, ◌<◌, OnOk};
ghost use Rattle.pg_types.specs.Inside.Limits.{sums_limit};
ghost use Rattle.pg_driver.specs.Inside.records.SoundRecords.{IsSmall};
ghost use Rattle.pg_texts.specs.ReportTexts.{totals_text, rate_text, ending_text};
ghost use Rattle.pg_texts.specs.Inside.ReportLines.{hundredths};

use pg_types::{Totals, push_number};
use std::alloc::AllocError;

/// Appends totals as `G good, B bad, M missed`.
pub fn push_totals(text: &mut Vec<u8>, totals: &Totals) -> Result<(), AllocError>
    ensures { OnOk result (text.new.items ≡ text.old.items ++ totals_text totals.now) }
{
    push_number(text, b"", totals.good)?;
    push_number(text, b" good, ", totals.bad)?;
    push_number(text, b" bad, ", totals.missed)?;
    text.extend_from_slice(b" missed")
}

/// Appends a text, and hundredths as a whole part, a point and two digits.
fn push_hundredths(text: &mut Vec<u8>, front: &[u8], n: u64) -> Result<(), AllocError>
    ensures { OnOk result (text.new.items ≡ text.old.items ++ front.now ++ hundredths n) }
{
    push_number(text, front, n / 100)?;
    push_number(text, b".", n / 10 % 10)?;
    push_number(text, b"", n % 10)
}

/// A sum in hundredths of a percent of a whole, cut.
fn rate(share: u64, whole: u64) -> u64
    requires small { share < sums_limit }
    requires some { 0 < whole }
    ensures { result ≡ 10000 * share / whole }
{
    10_000 * share / whole
}

/// Appends the line of rates: good, bad and missed in percent of good and missed together, cut
/// after two digits. There is none where good and missed are both 0.
fn push_rates(text: &mut Vec<u8>, totals: &Totals) -> Result<(), AllocError>
    requires { IsSmall totals.now }
    ensures { OnOk result (text.new.items ≡ text.old.items ++ rate_text totals.now) }
{
    let Totals { good, bad, missed } = *totals;
    let whole = good + missed;
    if whole == 0 {
        return Ok(());
    }
    push_hundredths(text, b"rate: ", rate(good, whole))?;
    push_hundredths(text, b" % good, ", rate(bad, whole))?;
    push_hundredths(text, b" % bad, ", rate(missed, whole))?;
    text.extend_from_slice(b" % missed\n")
}

/// Appends the line of the totals and that of the rates.
pub fn push_ending(text: &mut Vec<u8>, totals: &Totals) -> Result<(), AllocError>
    requires { IsSmall totals.now }
    ensures { OnOk result (text.new.items ≡ text.old.items ++ ending_text totals.now) }
{
    text.extend_from_slice(b"total: ")?;
    push_totals(text, totals)?;
    text.extend_from_slice(b"\n")?;
    push_rates(text, totals)
}
