//! What is known of each call that follows a plan.
ghost use Rattle.pg_plans.specs.Laws.{EachCallIsAnswered, AnsweredUnlessRose, KeptUnlessDone, KeptAfterUnread, NoUsage};

/// A call ends with a fault that has its cause, or for want of memory with nothing written or put.
/// Else its answer, files and lines are those of its plan.
pub fn each_call_is_answered()
    ensures { EachCallIsAnswered }
{}

/// Where no count rose and there was no want of memory, the answer, the files and the lines are
/// those of the plan.
pub fn answered_unless_rose()
    ensures { AnsweredUnlessRose }
{}

/// Files change only where a call is done, or after a fault.
pub fn kept_unless_done()
    ensures { KeptUnlessDone }
{}

/// Where the line says that a file could not be read, no file changed.
pub fn kept_after_unread()
    ensures { KeptAfterUnread }
{}

/// A call that follows a plan never answers that the arguments are no command.
pub fn no_usage()
    ensures { NoUsage }
{}
