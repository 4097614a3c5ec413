//! Faults that stop the program.

use bx_ucd::{Cause, UcdError};
use player_lines::WordFault;
use std::alloc::{AllocError, AllocFailed};
use std::io::{self, ErrorKind};
use thiserror::Error;

/// A fault. Its text is the line for standard error.
#[derive(Debug, Drop, Error)]
pub enum Fault {
    #[error("usage: player CLASSES BRACKETS MIRRORING [JOINING CHARACTERS] < LINES")]
    Words,
    /// The line of standard input with this number, from 1, is refused.
    #[error("line {0}: {1}")]
    BadLine(usize, &'static str),
    #[error("{0}")]
    Tables(UcdError),
    #[error("input or output failed")]
    Stream,
    #[error("out of memory")]
    OutOfMemory,
}

impl Fault {
    /// The fault in the line with this number, from 1.
    pub fn at(self, number: usize) -> Fault {
        match self {
            Fault::BadLine(_, why) => Fault::BadLine(number, why),
            fault => fault,
        }
    }

    /// Whether the command line or a line is at fault.
    pub fn is_of_input(&self) -> bool {
        matches!(self, Fault::Words | Fault::BadLine(_, _))
    }
}

impl From<WordFault> for Fault {
    fn from(fault: WordFault) -> Self {
        match fault {
            WordFault::Bad(why) => Fault::BadLine(0, why),
            WordFault::OutOfMemory => Fault::OutOfMemory,
        }
    }
}

impl From<AllocError> for Fault {
    fn from(_error: AllocError) -> Self {
        Fault::OutOfMemory
    }
}

impl<T: Drop> From<AllocFailed<T>> for Fault {
    fn from(_error: AllocFailed<T>) -> Self {
        Fault::OutOfMemory
    }
}

impl From<io::Error> for Fault {
    fn from(error: io::Error) -> Self {
        match error.kind() {
            ErrorKind::OutOfMemory => Fault::OutOfMemory,
            _ => Fault::Stream,
        }
    }
}

impl From<UcdError> for Fault {
    fn from(error: UcdError) -> Self {
        match error.cause {
            Cause::OutOfMemory => Fault::OutOfMemory,
            _ => Fault::Tables(error),
        }
    }
}
