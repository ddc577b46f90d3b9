//! How the lines of a pass and of a level begin.
ghost use Rattle.std.specs.Prelude.{◌≡◌, ◌++◌, OnOk};
ghost use Rattle.pg_driver.specs.Inside.records.RunAccounts.{line_of};
ghost use Rattle.pg_texts.specs.Fronts.{pass_front, level_front};

use pg_driver::PassRecord;
use pg_types::push_number;
use std::alloc::AllocError;

/// Appends the front of the line of a pass.
pub fn push_pass_front(text: &mut Vec<u8>, pass: &PassRecord) -> Result<(), AllocError>
    ensures { OnOk result
        (text.new.items ≡ text.old.items ++ pass_front (line_of pass.now).pass) }
{
    push_number(text, b"pass ", u64::from(pass.level))?;
    push_number(text, b" ", u64::from(pass.len))?;
    push_number(text, b" ", u64::from(pass.dot))?;
    text.extend_from_slice(b": ")
}

/// Appends the front of the line of a level.
pub fn push_level_front(text: &mut Vec<u8>, level: u8) -> Result<(), AllocError>
    ensures { OnOk result (text.new.items ≡ text.old.items ++ level_front level) }
{
    push_number(text, b"level ", u64::from(level))?;
    text.extend_from_slice(b": ")
}
