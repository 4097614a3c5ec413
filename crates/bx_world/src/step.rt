//! Steps of the world, and their errors.

use bx_grid::GridError;
use bx_session::Refused;
use thiserror::Error;

/// An action of the user, the program or the terminal.
#[derive(Clone, Copy)]
pub enum Step {
    /// A byte of input.
    Byte(u8),
    /// The window gets a size, in rows and columns.
    Window(u16, u16),
    /// The session is told a size, in rows and columns.
    Told(u16, u16),
    /// At most this number of the session's pending bytes go to the line, the bytes in transit to the terminal.
    Send(usize),
    /// The terminal reads at most this number of bytes from the line.
    Read(usize),
}

/// Why a step was refused.
#[derive(Debug, Drop, Error)]
pub enum StepFault {
    /// The session refused a byte or a told size.
    #[error("the session refused the step")]
    Session(Refused),
    /// The terminal refused a size, or ran out of memory: it has then failed for good, and the bytes of the read are lost.
    #[error("the terminal refused the step")]
    Screen(GridError),
    /// No memory for the line; no byte was moved. From a whole schedule: no step was taken.
    #[error("no memory for the line")]
    Line,
}
