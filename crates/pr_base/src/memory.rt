//! Want of memory.

use std::alloc::{AllocError, AllocFailed};

/// Memory ran out. What a call that answers it leaves is said by that call.
#[derive(Clone, Copy, Debug, PartialEq)]
pub struct NoMemory;

impl From<AllocError> for NoMemory {
    fn from(_error: AllocError) -> NoMemory {
        NoMemory
    }
}

impl<T: Drop> From<AllocFailed<T>> for NoMemory {
    fn from(_error: AllocFailed<T>) -> NoMemory {
        NoMemory
    }
}
