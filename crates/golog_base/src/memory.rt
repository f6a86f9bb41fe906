// `NoMemory`: what whatever takes memory answers where memory ran out, in place of failing the
// process.
use std::alloc::{AllocError, AllocFailed};
use thiserror::Error;

/// Memory ran out.
#[derive(Debug, Drop, Error)]
#[error("memory ran out")]
pub struct NoMemory;

impl From<AllocError> for NoMemory {
    fn from(_error: AllocError) -> NoMemory {
        NoMemory
    }
}

impl<T: Drop> From<AllocFailed<T>> for NoMemory {
    fn from(_refused: AllocFailed<T>) -> NoMemory {
        NoMemory
    }
}
