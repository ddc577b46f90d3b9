//! Laws of the definitions of this crate. A call does nothing; its contract is the law.
ghost use Rattle.pg_table.specs.Inside.Laws.{ValuesArePacked, TotalsArePacked};

/// A table that gives each string the values of patterns gives each position of each word the value
/// of the patterns, and each word list their totals. [`table_text`](crate::table_text) makes such a
/// table.
pub fn packed_values()
    ensures values { ValuesArePacked }
    ensures totals { TotalsArePacked }
{}
