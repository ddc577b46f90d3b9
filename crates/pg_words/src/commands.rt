//! The commands. Their names are borrowed, and a borrowed name has an address in contracts too. So
//! the definitions have a type of their own, `Request`, whose names are bytes, and `asked_by` leads
//! from a command to its request.
ghost use Rattle.std.specs.Prelude.{◌≡◌};
ghost use Rattle.pg_words.specs.Inside.Requests.{ToPack, ToTotals, ToPrune};
ghost use Rattle.pg_words.specs.Inside.CommandRequests.{asked_by, pack_of, totals_request_of, prune_of};

/// The names that `generate` and `audit` are given. `audit` reads the files that `generate` writes.
#[derive(Clone, Copy)]
pub struct Names<'a> {
    /// The dictionary.
    pub dict: &'a str,
    /// The starting patterns.
    pub patterns: &'a str,
    /// Where the patterns are written.
    pub output: &'a str,
    /// The translate file.
    pub translate: &'a str,
    /// The parameters file.
    pub params: &'a str,
    /// Where the report is written.
    pub report: &'a str,
    /// Where the hyphenated list is written, if it is asked for.
    pub pattmp: Option<&'a str>,
    /// Where the cells file is written, if it is asked for.
    pub cells: Option<&'a str>,
}

/// The names that `pack` is given.
#[derive(Clone, Copy)]
pub struct PackNames<'a> {
    /// The patterns.
    pub patterns: &'a str,
    /// The translate file.
    pub translate: &'a str,
    /// Where the table is written.
    pub table: &'a str,
}

impl<'a> PackNames<'a> {
    /// The names in the fields of `Command::Pack`.
    pub fn new(patterns: &'a str, translate: &'a str, table: &'a str) -> PackNames<'a>
        ensures { ToPack (pack_of result)
            ≡ asked_by (Command.Pack patterns.entry translate.entry table.entry) }
    {
        PackNames {
            patterns,
            translate,
            table,
        }
    }
}

/// The names that `totals` is given.
#[derive(Clone, Copy)]
pub struct TotalsNames<'a> {
    /// The dictionary.
    pub dict: &'a str,
    /// The translate file.
    pub translate: &'a str,
    /// The packed table.
    pub table: &'a str,
}

impl<'a> TotalsNames<'a> {
    /// The names in the fields of `Command::Totals`.
    pub fn new(dict: &'a str, translate: &'a str, table: &'a str) -> TotalsNames<'a>
        ensures { ToTotals (totals_request_of result)
            ≡ asked_by (Command.Totals dict.entry translate.entry table.entry) }
    {
        TotalsNames {
            dict,
            translate,
            table,
        }
    }
}

/// The names that `prune` is given.
#[derive(Clone, Copy)]
pub struct PruneNames<'a> {
    /// The dictionary.
    pub dict: &'a str,
    /// The patterns.
    pub patterns: &'a str,
    /// Where the patterns that stay are written.
    pub output: &'a str,
    /// The translate file.
    pub translate: &'a str,
    /// Where the report is written.
    pub report: &'a str,
}

impl<'a> PruneNames<'a> {
    /// The names in the fields of `Command::Prune`.
    pub fn new(
        dict: &'a str,
        patterns: &'a str,
        output: &'a str,
        translate: &'a str,
        report: &'a str,
    ) -> PruneNames<'a>
        ensures { ToPrune (prune_of result) ≡ asked_by
            (Command.Prune dict.entry patterns.entry output.entry translate.entry report.entry) }
    {
        PruneNames {
            dict,
            patterns,
            output,
            translate,
            report,
        }
    }
}

/// What `sweep` is given.
#[derive(Clone, Copy)]
pub struct SweepWords<'a> {
    /// The dictionary.
    pub dict: &'a str,
    /// The starting patterns.
    pub patterns: &'a str,
    /// Where the table of the sweep is written.
    pub output: &'a str,
    /// The translate file.
    pub translate: &'a str,
    /// [`FOLDS_MIN`](pg_types::FOLDS_MIN) to [`FOLDS_MAX`](pg_types::FOLDS_MAX).
    pub folds: u8,
    /// What a unit of bad costs, 1 to [`PRICE_MAX`](pg_types::PRICE_MAX).
    pub bad: u32,
    /// What a unit of missed costs, 1 to [`PRICE_MAX`](pg_types::PRICE_MAX).
    pub missed: u32,
    /// The parameter files, 1 to [`SETS_MAX`](pg_types::SETS_MAX).
    pub params: &'a [String],
}

/// What arguments ask for.
#[derive(Clone, Copy)]
pub enum Command<'a> {
    /// To select patterns and write them.
    Generate(Names<'a>),
    /// To compare given files with those that would be written.
    Audit(Names<'a>),
    /// To make a dictionary from a seed, and to print how a selection on it goes. The fields are
    /// the seed and the number of words.
    Sample(u32, u32),
    /// To write the packed table of patterns.
    Pack {
        /// The patterns.
        patterns: &'a str,
        /// The translate file.
        translate: &'a str,
        /// Where the table is written.
        table: &'a str,
    },
    /// To print the totals of a dictionary by a packed table.
    Totals {
        /// The dictionary.
        dict: &'a str,
        /// The translate file.
        translate: &'a str,
        /// The packed table.
        table: &'a str,
    },
    /// To take out the entries of patterns that change no break of a dictionary, and to write the
    /// rest and a report.
    Prune {
        /// The dictionary.
        dict: &'a str,
        /// The patterns.
        patterns: &'a str,
        /// Where the patterns that stay are written.
        output: &'a str,
        /// The translate file.
        translate: &'a str,
        /// Where the report is written.
        report: &'a str,
    },
    /// To find the cheapest of several parameter files, and to write what each comes to.
    Sweep(SweepWords<'a>),
}
