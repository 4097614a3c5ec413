//! Why a save failed.
ghost use Rattle.std.specs.Prelude.{◌≡◌};
ghost use Rattle.bx_store.specs.Stores.{cause_of_kind};
ghost use Rattle.bx_store.specs.Faults.{cause_text};
ghost use Rattle.bx_store.specs.HostStores.{IsCauseOf};

use std::io::ErrorKind;

/// Why a save failed, as far as the system tells.
#[derive(Clone, Copy, Debug)]
pub enum SaveCause {
    /// The disk is full, or the user's share of it.
    NoSpace,
    /// The system does not permit the user a call that the save needs.
    NotPermitted,
    /// The folder on the path is gone, or is not a folder now.
    FolderGone,
    /// The disk takes no change.
    ReadOnly,
    /// The file would be larger than the system or a limit allows.
    TooLarge,
    OutOfMemory,
    /// Another program changed the file.
    Changed,
    /// A folder, a device, a pipe or a socket took the file's place.
    NotPlain,
    /// The file has only a beginning of its new text; the backup, a file next to it, has all of it.
    CutOff,
    /// Any other fault.
    Other,
    /// Something has the new name already.
    Exists,
}

impl SaveCause {
    /// The cause of a fault of this kind. None has the cause `Changed`, `NotPlain` or `CutOff`.
    pub fn of(kind: ErrorKind) -> Self
        ensures { result ≡ cause_of_kind kind }
    {
        match kind {
            ErrorKind::StorageFull | ErrorKind::QuotaExceeded => SaveCause::NoSpace,
            ErrorKind::PermissionDenied => SaveCause::NotPermitted,
            ErrorKind::NotFound | ErrorKind::NotADirectory => SaveCause::FolderGone,
            ErrorKind::ReadOnlyFilesystem => SaveCause::ReadOnly,
            ErrorKind::FileTooLarge => SaveCause::TooLarge,
            ErrorKind::OutOfMemory => SaveCause::OutOfMemory,
            ErrorKind::AlreadyExists => SaveCause::Exists,
            _ => SaveCause::Other,
        }
    }

    /// The cause of the host's byte (`host/cause.h`). One that it never sends is `Other`.
    pub fn of_byte(byte: u8) -> Self
        ensures { IsCauseOf byte result }
    {
        match byte {
            1 => SaveCause::NoSpace,
            2 => SaveCause::NotPermitted,
            3 => SaveCause::FolderGone,
            4 => SaveCause::ReadOnly,
            5 => SaveCause::TooLarge,
            6 => SaveCause::OutOfMemory,
            7 => SaveCause::Changed,
            8 => SaveCause::NotPlain,
            9 => SaveCause::CutOff,
            10 => SaveCause::Other,
            11 => SaveCause::Exists,
            _ => SaveCause::Other,
        }
    }

    /// The words for the status row.
    pub fn text(self) -> &'static str
        ensures { result.now ≡ cause_text self }
    {
        match self {
            SaveCause::NoSpace => "no space",
            SaveCause::NotPermitted => "not permitted",
            SaveCause::FolderGone => "folder gone",
            SaveCause::ReadOnly => "read-only disk",
            SaveCause::TooLarge => "file too large",
            SaveCause::OutOfMemory => "out of memory",
            SaveCause::Changed => "file changed on disk",
            SaveCause::NotPlain => "not a plain file",
            SaveCause::CutOff => "file incomplete, its whole text is in a .bx file next to it",
            SaveCause::Other => "disk error",
            SaveCause::Exists => "file exists",
        }
    }
}
