//! The folder of a name, and what a name stands for once its links are followed.
ghost use Rattle.std.specs.Prelude.{◌≡◌, IfOk, IfErr, string_bytes};
ghost use Rattle.pg_outside.specs.Inside.disk.Causes.{IsCauseOf};
ghost use Rattle.pg_outside.specs.Inside.disk.Disks.{KeepsDisk, HoldsNow};
ghost use Rattle.pg_outside.specs.Inside.disk.NewNames.{IsFolderOf, IsLinkedName};
ghost use Rattle.pg_outside.specs.Inside.disk.Writes.{IsDeep, LeadsThroughOpen, StandsFor};

use super::error::WriteError;
use super::system::{FileId, NameKind, System};
use std::alloc::{AllocError, Global};

/// How many names are looked at: a name, and those that up to 40 links say, one after the other.
const LINK_NAMES_MAX: u32 = 41;

/// The folder of a name with its last slash, and nothing where the name has no slash.
pub fn folder_of(name: &str) -> &str
    ensures { IsFolderOf result.now name.now }
{
    match name.rfind('/') {
        Some(slash) => &name[..slash + 1],
        None => "",
    }
}

/// The name that the text of a link says. It is seen from the root, or from the link's folder.
///
/// # Errors
/// Where there is not enough memory.
pub fn linked_name(alloc: Global, link: &str, text: &str) -> Result<String, AllocError>
    ensures { IfOk result (λ name. IsLinkedName link.now text.now (string_bytes name)) }
{
    let folder = folder_of(link);
    if text.starts_with('/') {
        return String::from_str(alloc, text);
    }
    format!(in alloc; "{folder}{text}")
}

/// A name that is no link, and the file that it leads to, if there is one.
#[derive(Drop)]
pub struct RealName {
    /// The name.
    pub name: String,
    /// The file, if there is one.
    pub file: Option<FileId>,
}

fn make_real_name(name: String, file: Option<FileId>) -> RealName
    ensures name { string_bytes result.name ≡ string_bytes name }
    ensures file { result.file ≡ file }
{
    RealName { name, file }
}

/// Follows the links of a name, up to a name that is no link.
///
/// # Errors
/// `Opened` where one of them is a link of the system to an open file. `Unfollowed` where the name
/// begins a row of more links than are followed.
pub fn follow<S: System>(alloc: Global, system: &mut S, name: &str) -> Result<RealName, WriteError>
    ensures same { KeepsDisk (S.told system.old) (S.told system.new) }
    ensures found { IfOk result (λ found. (S.failures system.new ≡ S.failures system.old)
        × HoldsNow (S.told system.new) (StandsFor (string_bytes found.name) found.file name.now)) }
    ensures cause { IfErr result (IsCauseOf (S.failures system.old) (S.failures system.new)
        ⊥ (HoldsNow (S.told system.new) (LeadsThroughOpen name.now))
        (HoldsNow (S.told system.new) (IsDeep name.now)) ⊥) }
{
    let mut real = String::from_str(alloc, name)?;
    for _ in 0..LINK_NAMES_MAX {
        match system.look(real.as_str())? {
            NameKind::Link => {
                let text = system.read_link(alloc, real.as_str())?;
                real = linked_name(alloc, real.as_str(), text.as_str())?;
            }
            NameKind::OpenFile => return Err(WriteError::Opened),
            NameKind::Missing => return Ok(make_real_name(real, None)),
            NameKind::File(id) => return Ok(make_real_name(real, Some(id))),
        }
    }
    Err(WriteError::Unfollowed)
}
