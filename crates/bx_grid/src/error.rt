//! Why a grid is refused.

use std::alloc::AllocError;
use thiserror::Error;

/// Why a grid, or a screen of its size, is not made.
#[derive(Debug, Drop, Error)]
pub enum GridError {
    #[error("a side is not from 1 to 500")]
    SizeOutOfRange,
    #[error("out of memory")]
    OutOfMemory,
}

impl From<AllocError> for GridError {
    ghost use Rattle.std.specs.Prelude.{◌≡◌};
    ghost use Rattle.bx_grid.specs.declared.error.GridError.TheVariants.{OutOfMemory};

    ghost from_gives = { λ e r. r ≡ OutOfMemory };

    fn from(_error: AllocError) -> Self {
        GridError::OutOfMemory
    }
}
