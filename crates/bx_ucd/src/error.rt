//! The errors of reading Unicode's data files.

ghost use Rattle.std.specs.Prelude.{◌≡◌};
ghost use Rattle.bx_ucd.specs.Lines.{no_memory_in};

use std::{error, fmt};
use thiserror::Error;

/// The data files, in the order in which they are read.
#[derive(Clone, Copy, Debug, Error)]
pub enum UcdFile {
    /// DerivedBidiClass.txt
    #[error("classes")]
    Classes,
    /// BidiBrackets.txt
    #[error("brackets")]
    Brackets,
    /// BidiMirroring.txt
    #[error("mirroring")]
    Mirroring,
    /// ArabicShaping.txt
    #[error("joining")]
    Joining,
    /// UnicodeData.txt
    #[error("characters")]
    Characters,
}

/// The faults of a line, in the order of the checks: the first that fails is reported.
#[derive(Clone, Copy, Debug, Error)]
pub enum Cause {
    /// The line has too few or too many fields.
    #[error("bad line")]
    BadLine,
    /// A field is not four to six hexadecimal digits up to 10FFFF, or is a surrogate where a character is wanted.
    #[error("bad code")]
    BadCode,
    /// A range's end is below its start.
    #[error("bad range")]
    BadRange,
    /// No class, side of a bracket or joining type has this name.
    #[error("unknown value")]
    UnknownValue,
    /// A control is given as a character, a mirror, a letter or a form; the name tells of mirrors alone.
    #[error("control in mirror")]
    ControlInMirror,
    /// An allocation failed. The line is 0, and later lines may be unread.
    #[error("out of memory")]
    OutOfMemory,
}

/// The first refused line of the files, or a failed allocation.
#[derive(Clone, Copy, Debug)]
pub struct UcdError {
    pub file: UcdFile,
    /// The line in its file, counted from 1; 0 where an allocation failed.
    pub line: u64,
    pub cause: Cause,
}

impl UcdError {
    /// An allocation failed while the file was read.
    pub(crate) fn out_of_memory(file: UcdFile) -> UcdError
        ensures { result ≡ no_memory_in file }
    {
        UcdError {
            file,
            line: 0,
            cause: Cause::OutOfMemory,
        }
    }
}

impl fmt::Display for UcdError {
    /// Writes the file, the line and the cause, or just `out of memory`.
    fn fmt<W: fmt::Write>(&self, f: &mut fmt::Formatter<W>) -> fmt::Result {
        let UcdError { file, line, cause } = *self;
        match cause {
            Cause::OutOfMemory => write!(f, "{cause}"),
            _ => write!(f, "{file} line {line}: {cause}"),
        }
    }
}

impl error::Error for UcdError {}
