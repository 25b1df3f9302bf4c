//! Why bytes are no document.

ghost use Rattle.std.specs.Prelude.{◌≡◌};
ghost use Rattle.mm_bson.specs.declared.fault.BsonFault.TheVariants.{NoMemory};

use std::alloc::{AllocError, AllocFailed};
use thiserror::Error;

/// The first fault in reading order, and the offset where it is.
#[derive(Clone, Copy, Debug, PartialEq, Eq, Error)]
pub enum BsonFault {
    #[error("at byte {at}: a length doesn't agree")]
    BadLength { at: usize },
    #[error("at byte {at}: the byte {byte} is no type, or no boolean")]
    BadType { at: usize, byte: u8 },
    #[error("at byte {at}: the text isn't UTF-8")]
    BadUtf8 { at: usize },
    #[error("at byte {at}: the name isn't the one that is due in its array")]
    BadName { at: usize },
    #[error("at byte {at}: more than 100 levels")]
    TooDeep { at: usize },
    #[error("more than 16777216 bytes")]
    TooLong,
    #[error("out of memory")]
    NoMemory,
}

impl From<AllocError> for BsonFault {
    ghost from_gives = { λ _ e. e ≡ NoMemory };

    fn from(_e: AllocError) -> BsonFault {
        BsonFault::NoMemory
    }
}

impl<T: Drop> From<AllocFailed<T>> for BsonFault {
    ghost from_gives = { λ _ e. e ≡ NoMemory };

    fn from(_e: AllocFailed<T>) -> BsonFault {
        BsonFault::NoMemory
    }
}
