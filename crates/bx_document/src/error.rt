//! Errors of opening a text.
use bx_common::OutOfMemory;
use std::alloc::AllocError;
use thiserror::Error;

/// Why a text could not be opened.
#[derive(Clone, Copy, Debug, Error)]
pub enum DocumentError {
    /// The text has more than 16,777,216 bytes.
    #[error("file too long")]
    TooLong,
    /// Memory ran out.
    #[error("out of memory")]
    OutOfMemory,
}

impl From<AllocError> for DocumentError {
    ghost use Rattle.std.specs.Prelude.{◌≡◌};
    ghost use Rattle.bx_document.specs.declared.error.DocumentError.TheVariants.{OutOfMemory};

    ghost from_gives = { λ e r. r ≡ OutOfMemory };

    fn from(_error: AllocError) -> Self {
        DocumentError::OutOfMemory
    }
}

impl From<OutOfMemory> for DocumentError {
    ghost use Rattle.std.specs.Prelude.{◌≡◌};
    ghost use Rattle.bx_document.specs.declared.error.DocumentError.TheVariants.{OutOfMemory};

    ghost from_gives = { λ e r. r ≡ OutOfMemory };

    fn from(_error: OutOfMemory) -> Self {
        DocumentError::OutOfMemory
    }
}
