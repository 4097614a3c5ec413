//! Faults that end the program with status 1.

ghost use Rattle.std.specs.Prelude.{◌≡◌};

use bx_command::{FileFault, TextFault};
use bx_recovery::RecoveryFault;
use bx_session::{OpenError, Refused, RunFault};
use bx_store::StoreFault;
use bx_ucd::UcdError;
use std::alloc::AllocError;
use thiserror::Error;

/// A fault. Its text is the line for standard error.
#[derive(Debug, Drop, Error)]
pub enum ProgramFault<'a> {
    /// One of Unicode's files was refused.
    #[error("bidi_edit: {0}")]
    Tables(UcdError),
    /// An input file could not be read.
    #[error("bidi_edit: {0}")]
    File(FileFault<'a>),
    /// A text that was checked, alone or before it is opened, cannot be opened.
    #[error("bidi_edit: {0}")]
    Text(TextFault),
    /// The text could not be opened.
    #[error("bidi_edit: {0}")]
    Open(OpenError),
    /// The run broke off.
    #[error("bidi_edit: {0}")]
    Run(RunFault),
    /// The input ended with unsaved changes.
    #[error("bidi_edit: input ended before saving")]
    Unsaved,
    /// The recovered text could not be stored.
    #[error("bidi_edit: cannot write the recovered text")]
    Unwritten,
    /// What comes before the first painting, or the line about a recovered text, could not be written.
    #[error("bidi_edit: output failed")]
    Untold,
    #[error("bidi_edit: out of memory")]
    OutOfMemory,
}

impl From<RecoveryFault> for ProgramFault<'_> {
    ghost use Rattle.bidi_edit.specs.Faults.{fault_of_recovery};

    ghost from_gives = { λ fault new. new ≡ fault_of_recovery fault };

    fn from(fault: RecoveryFault) -> Self {
        match fault {
            RecoveryFault::Tables(error) => ProgramFault::Tables(error),
            RecoveryFault::Open(error) => ProgramFault::Open(error),
            RecoveryFault::Unwritten => ProgramFault::Unwritten,
            RecoveryFault::OutOfMemory => ProgramFault::OutOfMemory,
        }
    }
}

impl<'a> From<FileFault<'a>> for ProgramFault<'a> {
    ghost use Rattle.bidi_edit.specs.declared.fault.ProgramFault.TheVariants.{File};

    ghost from_gives = { λ fault new. new ≡ File fault };

    fn from(fault: FileFault<'a>) -> Self {
        ProgramFault::File(fault)
    }
}

impl From<TextFault> for ProgramFault<'_> {
    ghost use Rattle.bidi_edit.specs.declared.fault.ProgramFault.TheVariants.{Text};

    ghost from_gives = { λ fault new. new ≡ Text fault };

    fn from(fault: TextFault) -> Self {
        ProgramFault::Text(fault)
    }
}

impl From<Refused> for ProgramFault<'_> {
    ghost use Rattle.bidi_edit.specs.declared.fault.ProgramFault.TheVariants.{OutOfMemory};

    ghost from_gives = { λ _ new. new ≡ OutOfMemory };

    /// A painting is refused when memory runs out.
    fn from(_refused: Refused) -> Self {
        ProgramFault::OutOfMemory
    }
}

impl From<StoreFault> for ProgramFault<'_> {
    /// Creating a store fails only when memory runs out.
    fn from(_fault: StoreFault) -> Self {
        ProgramFault::OutOfMemory
    }
}

impl From<AllocError> for ProgramFault<'_> {
    fn from(_error: AllocError) -> Self {
        ProgramFault::OutOfMemory
    }
}
