//! The calls that were made on files, as clauses read them. No code reads them, and they take no
//! memory.
ghost use Rattle.std.specs.Prelude.{◌≡◌, List, [], ◌∷◌, ◌++◌};
ghost use Rattle.std.specs.Borrow.{ftrue};
ghost use Rattle.pg_outside.specs.FilesCalls.{FilesCall};
ghost use Rattle.pg_outside.specs.Inside.calls.CallCodes.{calls_code};

use std::marker::Model;

/// The calls that were made on files, in their order. It is empty at run time.
#[derive(Drop)]
pub(crate) struct CallLog {
    pub ghost made: { List FilesCall } by { calls_code },
}

impl Model for CallLog {
    ghost also_owns = { λ _. ftrue };
}

/// A call on files, with the name that was given.
#[derive(Clone, Copy)]
pub(crate) enum Call<'a> {
    Read(&'a str),
    Write(&'a str),
}

impl CallLog {
    ghost use Rattle.pg_outside.specs.Inside.calls.CallLogs.{call_of};

    /// No call so far.
    pub(crate) fn new() -> CallLog
        ensures { result.made ≡ [] }
    {
        CallLog {}
    }

    /// These calls, and then one more.
    pub(crate) fn and(&self, _call: &Call<'_>) -> CallLog
        ensures { result.made ≡ self.now.made ++ call_of _call.now ∷ [] }
    {
        CallLog {}
    }
}
