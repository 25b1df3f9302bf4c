//! Want of memory.

use std::alloc::AllocError;
use thiserror::Error;

/// There was no memory, or a bound would have 2^31 bytes or more. All is as it
/// was before the call.
#[derive(Clone, Copy, Debug, PartialEq, Eq, Error)]
#[error("out of memory")]
pub struct NoMemory;

impl From<AllocError> for NoMemory {
    fn from(_e: AllocError) -> NoMemory {
        NoMemory
    }
}
