//! Laws on the comparison of files. A call does nothing; its contract is the law.
ghost use Rattle.std.specs.Prelude.{◌≡◌, ℕ, ◌+◌, ◌<◌, ◌≤◌, List, length};
ghost use Rattle.pg_audit.specs.declared.lines.TheConstants.{SHOWN_MAX};
ghost use Rattle.pg_audit.specs.Inside.FirstFalse.{first_false_shown, first_false_printed, first_part};

/// Where a given file is longer than the wanted one by more than `more` bytes, its first part has
/// the same false line as the whole. This part has `more + 1` bytes more than the wanted file. The
/// number of the line is the same, and so are the first `more + 1` bytes of what was found. Where
/// `more` is greater than [`SHOWN_MAX`](crate::SHOWN_MAX), the same is printed.
pub fn first_part_is_enough()
    ensures shown { (given wanted : List ℕ) (more : ℕ) → length wanted + more < length given
        → first_false_shown (more + 1) (first_part (more + 1) given wanted) wanted
        ≡ first_false_shown (more + 1) given wanted }
    ensures printed { (given wanted : List ℕ) (more : ℕ)
        → SHOWN_MAX < more → length wanted + more < length given
        → first_false_printed (first_part (more + 1) given wanted) wanted
        ≡ first_false_printed given wanted }
{}
