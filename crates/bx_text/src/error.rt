//! Why a text is not opened or edited.

use std::alloc::AllocError;
use thiserror::Error;

/// Why a text was not opened or edited. An error leaves it unchanged.
#[derive(Clone, Copy, Debug, Error)]
pub enum TextError {
    /// An offset is inside a character or past the end, or a range's start is past its end.
    #[error("not a boundary of characters")]
    NotABoundary,
    /// The text would have more than 16,777,216 bytes, `LARGEST_TEXT`.
    #[error("text too long")]
    TooLong,
    #[error("out of memory")]
    OutOfMemory,
}

impl From<AllocError> for TextError {
    ghost use Rattle.std.specs.Prelude.{◌≡◌};
    ghost use Rattle.bx_text.specs.declared.error.TextError.TheVariants.{OutOfMemory};

    ghost from_gives = { λ e r. r ≡ OutOfMemory };

    fn from(_error: AllocError) -> Self {
        TextError::OutOfMemory
    }
}
