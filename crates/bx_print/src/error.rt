//! Errors of printing.
use bx_bytes::WriteFault;
use bx_common::OutOfMemory;
use bx_text::TextError;
use std::alloc::AllocError;
use thiserror::Error;

/// Why a text could not be printed.
#[derive(Clone, Copy, Debug, Error)]
pub enum PrintError {
    /// The text has more than 16,777,216 bytes.
    #[error("file too long")]
    TooLong,
    /// A write or a flush failed, or a write took no byte.
    #[error("output failed")]
    WriteFault,
    /// Memory ran out.
    #[error("out of memory")]
    OutOfMemory,
}

impl From<AllocError> for PrintError {
    ghost use Rattle.std.specs.Prelude.{◌≡◌};
    ghost use Rattle.bx_print.specs.declared.error.PrintError.TheVariants.{OutOfMemory};

    ghost from_gives = { λ e r. r ≡ OutOfMemory };

    fn from(_error: AllocError) -> Self {
        PrintError::OutOfMemory
    }
}

impl From<TextError> for PrintError {
    ghost use Rattle.std.specs.Prelude.{◌≡◌};
    ghost use Rattle.bx_print.specs.declared.error.PrintError.TheVariants.{OutOfMemory};

    ghost from_gives = { λ e r. r ≡ OutOfMemory };

    /// The calls converted so copy a part of an open text, which fails only when memory runs out; `print` tells `TooLong` itself.
    fn from(_error: TextError) -> Self {
        PrintError::OutOfMemory
    }
}

impl From<OutOfMemory> for PrintError {
    ghost use Rattle.std.specs.Prelude.{◌≡◌};
    ghost use Rattle.bx_print.specs.declared.error.PrintError.TheVariants.{OutOfMemory};

    ghost from_gives = { λ e r. r ≡ OutOfMemory };

    fn from(_error: OutOfMemory) -> Self {
        PrintError::OutOfMemory
    }
}

impl From<WriteFault> for PrintError {
    ghost use Rattle.std.specs.Prelude.{◌≡◌};
    ghost use Rattle.bx_print.specs.declared.error.PrintError.TheVariants.{WriteFault};

    ghost from_gives = { λ e r. r ≡ WriteFault };

    fn from(_fault: WriteFault) -> Self {
        PrintError::WriteFault
    }
}
