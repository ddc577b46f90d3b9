//! The changes of a disk, each by one call.

/// A change. A file's number is how many changes were before it was made.
#[derive(Drop)]
pub(crate) enum Change {
    /// A file was made under this name.
    Made(String),
    /// The first name was given to the file of the second name. The file keeps both names.
    Shared(String, String),
    /// The file of this number got these permissions.
    GotMode(u64, u32),
    /// These bytes were put behind those of the file of this number.
    Wrote(u64, Vec<u8>),
    /// The device got all of the file of this number.
    Stored(u64),
    /// The second name was given to the file of the first name. The file lost the first one.
    Renamed(String, String),
    /// This name was taken away.
    Removed(String),
    /// The system refused to remove this name.
    Refused(String),
    /// A call to alter an open file failed. Nothing was altered.
    Stayed,
}
