//! Notices for the status row, which come with the input.

/// What the host, the program that starts the editor and keeps a copy of what is typed, tells its user.
#[derive(Clone, Copy, PartialEq, Eq)]
pub enum Notice {
    /// No copy is kept: the disk has no space.
    NoSpace,
    /// No copy is kept: its folder is gone.
    FolderGone,
    /// No copy is kept: it may not be written.
    NotPermitted,
    /// No copy is kept: the disk is read-only.
    ReadOnly,
    /// No copy is kept, for another reason.
    Unkept,
    /// A copy is kept again.
    KeptAgain,
    /// The text was recovered.
    Recovered,
    /// The text was recovered as another file, which is named at the end.
    RecoveredAside,
    /// Saves overwrite the file itself.
    InPlace,
}
