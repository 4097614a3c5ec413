//! Faults that end the program with status 1.

use bx_command::FileFault;
use bx_print::PrintError;
use bx_ucd::UcdError;
use std::alloc::AllocError;
use thiserror::Error;

/// A fault. Its text is printed after the program's name.
#[derive(Debug, Drop, Error)]
pub enum ProgramFault<'a> {
    /// A line of one of Unicode's files was refused.
    #[error("{0}")]
    Tables(UcdError),
    /// An input file could not be read.
    #[error("{0}")]
    File(FileFault<'a>),
    /// The file is not UTF-8; the first bad byte has this offset, from 0.
    #[error("not UTF-8 at byte {0}")]
    NotUtf8(usize),
    /// The text could not be printed.
    #[error("{0}")]
    Print(PrintError),
    #[error("out of memory")]
    OutOfMemory,
}

impl From<UcdError> for ProgramFault<'_> {
    ghost use Rattle.std.specs.Prelude.{◌≡◌};
    ghost use Rattle.bidi_print.specs.declared.fault.ProgramFault.TheVariants.{Tables};

    ghost from_gives = { λ error fault. fault ≡ Tables error };

    fn from(error: UcdError) -> Self {
        ProgramFault::Tables(error)
    }
}

impl<'a> From<FileFault<'a>> for ProgramFault<'a> {
    ghost use Rattle.std.specs.Prelude.{◌≡◌};
    ghost use Rattle.bidi_print.specs.declared.fault.ProgramFault.TheVariants.{File};

    ghost from_gives = { λ error fault. fault ≡ File error };

    fn from(fault: FileFault<'a>) -> Self {
        ProgramFault::File(fault)
    }
}

impl From<PrintError> for ProgramFault<'_> {
    ghost use Rattle.std.specs.Prelude.{◌≡◌};
    ghost use Rattle.bidi_print.specs.declared.fault.ProgramFault.TheVariants.{Print};

    ghost from_gives = { λ error fault. fault ≡ Print error };

    fn from(error: PrintError) -> Self {
        ProgramFault::Print(error)
    }
}

impl From<AllocError> for ProgramFault<'_> {
    ghost use Rattle.std.specs.Prelude.{◌≡◌};
    ghost use Rattle.bidi_print.specs.declared.fault.ProgramFault.TheVariants.{OutOfMemory};

    ghost from_gives = { λ _ fault. fault ≡ OutOfMemory };

    fn from(_error: AllocError) -> Self {
        ProgramFault::OutOfMemory
    }
}
