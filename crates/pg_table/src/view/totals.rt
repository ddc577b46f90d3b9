//! The totals of a word list by a packed table.
ghost use Rattle.std.specs.Prelude.{◌≡◌, ◌<◌};
ghost use Rattle.pg_types.specs.Inside.Limits.{sums_limit};
ghost use Rattle.pg_dict.specs.Inside.SoundWords.{SignsAtMost};
ghost use Rattle.pg_table.specs.Forms.{sizes_of};
ghost use Rattle.pg_table.specs.Lookups.{table_totals};
ghost use Rattle.pg_select.specs.Inside.SumSteps.{sum_of};

use crate::view::TableView;
use pg_dict::Dictionary;
use pg_select::WordState;
use pg_select::marks::{add_marks, no_totals};
use pg_translate::Table;
use pg_types::Totals;

/// The totals of the words of a dictionary by a packed table: the sums of the weights of the
/// positions in reach that are found, that are errors and that are missed. It takes no memory.
pub fn table_totals(view: &TableView<'_>, dictionary: &Dictionary, table: &Table) -> Totals
    requires { SignsAtMost (sizes_of view.now).signs dictionary.now }
    ensures value { result ≡ table_totals table.now dictionary.now view.now }
    ensures small { sum_of result < sums_limit }
{
    let mut found = WordState::new();
    let mut sums = no_totals();
    'words: for i in 0..dictionary.len() {
        let w = dictionary.word(i);
        view.values(w, &mut found);
        sums = add_marks(table, &w, &found, sums);
    }
    sums
}
