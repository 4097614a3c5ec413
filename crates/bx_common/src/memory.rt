//! The error of a failed allocation, which is the only error of most calls.

use std::alloc::{AllocError, AllocFailed};
use thiserror::Error;

/// An allocation failed.
#[derive(Clone, Copy, Debug, Error)]
#[error("out of memory")]
pub struct OutOfMemory;

impl From<AllocError> for OutOfMemory {
    fn from(_error: AllocError) -> Self {
        OutOfMemory
    }
}

impl<T: Drop> From<AllocFailed<T>> for OutOfMemory {
    fn from(_error: AllocFailed<T>) -> Self {
        OutOfMemory
    }
}
