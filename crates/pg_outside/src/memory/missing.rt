//! The names of the reads that found no file.
ghost use Rattle.std.specs.Prelude.{◌≡◌, ◌+◌, OnOk, OnErr};
ghost use Rattle.pg_outside.specs.Inside.NameFaults.{NoneFell, RoseByOneAtMost, SameOthers};
ghost use Rattle.pg_outside.specs.Inside.memory.MissingNames.{times_in};

use std::alloc::{AllocError, Global};

/// Notes a read that found no file of this name.
pub(crate) fn note_name(
    alloc: Global,
    names: &mut Vec<String>,
    name: &str,
) -> Result<(), AllocError>
    ensures counted { OnOk result
        (times_in names.new.items name.now ≡ times_in names.old.items name.now + 1) }
    ensures others { OnOk result
        (SameOthers (times_in names.old.items) (times_in names.new.items) name.now) }
    ensures later { NoneFell (times_in names.old.items) (times_in names.new.items) }
    ensures by_one { RoseByOneAtMost (times_in names.old.items) (times_in names.new.items) }
    ensures err { OnErr result (names.new.items ≡ names.old.items) }
{
    let name = String::from_str(alloc, name)?;
    names.push(name)?;
    Ok(())
}
