//! How a run over a reader ends.

use thiserror::Error;

/// How a run over a reader ended.
#[derive(Clone, Copy)]
pub enum End {
    /// A Quit ended the session.
    Quit,
    /// The input ended before the session. `changed`: there are unsaved changes.
    InputEnded { changed: bool },
}

/// Why a run over a reader broke off.
#[derive(Clone, Copy, Debug, Error)]
pub enum RunFault {
    /// A read failed.
    #[error("input failed")]
    ReadFault,
    /// A write or a flush failed: a prefix of the output was written, and the rest is still pending.
    #[error("output failed")]
    WriteFault,
    /// The limit of reads is reached.
    #[error("too many reads")]
    ReadLimit,
}
