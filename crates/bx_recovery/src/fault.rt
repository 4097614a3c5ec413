//! Faults of opening and recovering a session.

ghost use Rattle.std.specs.Prelude.{◌≡◌};

use bx_session::{OpenError, Refused};
use bx_ucd::UcdError;
use thiserror::Error;

/// Why a session could not be opened or recovered.
#[derive(Clone, Copy, Debug, Error)]
pub enum RecoveryFault {
    /// One of Unicode's files was refused.
    #[error("{0}")]
    Tables(UcdError),
    /// The text was refused.
    #[error("{0}")]
    Open(OpenError),
    /// The recovered text could not be stored.
    #[error("cannot write the recovered text")]
    Unwritten,
    /// Memory ran out while a key of the journal was applied, or the cursor was sent to its line.
    #[error("out of memory")]
    OutOfMemory,
}

impl From<UcdError> for RecoveryFault {
    ghost use Rattle.bx_recovery.specs.declared.fault.RecoveryFault.TheVariants.{Tables};

    ghost from_gives = { λ error fault. fault ≡ Tables error };

    fn from(error: UcdError) -> Self {
        RecoveryFault::Tables(error)
    }
}

impl From<OpenError> for RecoveryFault {
    ghost use Rattle.bx_recovery.specs.declared.fault.RecoveryFault.TheVariants.{Open};

    ghost from_gives = { λ error fault. fault ≡ Open error };

    fn from(error: OpenError) -> Self {
        RecoveryFault::Open(error)
    }
}

impl From<Refused> for RecoveryFault {
    ghost use Rattle.bx_recovery.specs.declared.fault.RecoveryFault.TheVariants.{OutOfMemory};

    ghost from_gives = { λ _ fault. fault ≡ OutOfMemory };

    /// A key is refused when memory runs out.
    fn from(_refused: Refused) -> Self {
        RecoveryFault::OutOfMemory
    }
}
