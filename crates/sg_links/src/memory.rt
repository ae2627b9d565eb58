use std::alloc::{AllocError, AllocFailed};

/// Running out of memory: an allocation for lists was refused.
#[derive(Clone, Copy, Debug, PartialEq, Eq)]
pub struct LinkMemory;

impl From<AllocError> for LinkMemory {
    fn from(_error: AllocError) -> LinkMemory {
        LinkMemory
    }
}

impl<T: Drop> From<AllocFailed<T>> for LinkMemory {
    fn from(_failed: AllocFailed<T>) -> LinkMemory {
        LinkMemory
    }
}
