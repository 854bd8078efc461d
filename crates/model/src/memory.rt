//! The answer of a call that found no memory.

use std::alloc::AllocError;

/// A growth was refused. What the call was handed is unchanged or handed back.
#[derive(Clone, Copy)]
pub struct OutOfMemory;

impl From<AllocError> for OutOfMemory {
    fn from(_refused: AllocError) -> OutOfMemory {
        OutOfMemory
    }
}
