//! What is known of each call. A call of these does nothing; its contract is the law.
ghost use Rattle.pg_top.specs.Promises.{TotalsOfPacked};
ghost use Rattle.pg_top.specs.Theorems.{AuditAccepts, AuditExact, EachAnswer, GenerateExact, PackExact, PruneExact, SampleExact, SweepExact, TotalsExact};

/// After `generate` is done each output name holds its text, every other file is as it was, and the
/// lines were put.
pub fn generate_exact()
    ensures { GenerateExact }
{}

/// With no fault and no want of memory, `audit` of accepted inputs says yes where each given file
/// is its text, and else no. Then it names the first that is not.
pub fn audit_exact()
    ensures { AuditExact }
{}

/// What `generate` wrote, `audit` of the same names accepts, with options of its own. Arguments that
/// are no command, a fault or want of memory may hinder it.
pub fn audit_accepts()
    ensures { AuditAccepts }
{}

/// What each answer of a call says of its cause, of the files and of the order of its calls.
pub fn only_these()
    ensures { EachAnswer }
{}

/// After `prune` is done its outputs hold what pruning finds. Its entries are of the pattern file
/// and break each word alike, and none of them can go alone.
pub fn prune_exact()
    ensures { PruneExact }
{}

/// After `sweep` is done its output holds the rows of the sets of parameters by its arguments, and
/// the set that was named costs least, the first of such sets.
pub fn sweep_exact()
    ensures { SweepExact }
{}

/// After `totals` is done the totals of the words by the packed table were put, and no file changed.
pub fn totals_exact()
    ensures { TotalsExact }
{}

/// After `pack` is done its output holds the packed table of the patterns, and its line was put.
pub fn pack_exact()
    ensures { PackExact }
{}

/// `totals` of the table that `pack` wrote puts the totals by the patterns.
pub fn totals_of_packed()
    ensures { TotalsOfPacked }
{}

/// `sample` is never refused and calls no file. After it is done the lines of the selection by its
/// arguments were put.
pub fn sample_exact()
    ensures { SampleExact }
{}
