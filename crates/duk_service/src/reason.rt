//! What is found of a file, after a fault is about it.

/// What the system says of a file that was refused.
#[derive(Clone, Copy, Debug, PartialEq, Eq)]
pub enum Reason {
    /// There is no such file.
    Missing,
    /// The file may not be opened.
    NoPermission,
    /// The file is a folder.
    Folder,
    /// Another program holds the file.
    InUse,
    /// The file is there, and was to be made.
    There,
    /// There is no folder for a file that was to be made.
    NoFolder,
    /// The system refuses the file for another reason.
    Other,
}

/// What a file that is no log or journal is seen to be.
#[derive(Clone, Copy, Debug, PartialEq, Eq)]
pub enum Strange {
    /// It has no byte.
    Empty,
    /// Its record at this place, from 0, is neither open nor zero.
    Record(u64),
}
