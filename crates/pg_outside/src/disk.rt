//! Real files: which file a name leads to, what is read and replaced, and what the disk holds at
//! every moment.

mod error;
mod files;
mod host;
mod links;
mod new_file;
mod read;
mod system;

pub use error::WriteError;
pub use files::DiskFiles;
pub use host::{HostFiles, HostSystem};
pub use links::{RealName, folder_of, follow, linked_name};
pub use system::{CallFailed, FileId, FileStatus, NameKind, System};
