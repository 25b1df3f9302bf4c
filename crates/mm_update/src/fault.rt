//! Why a change is refused.

ghost use Rattle.std.specs.Prelude.{◌≡◌};
ghost use Rattle.mm_update.specs.declared.fault.ChangeFault.TheVariants.{BadChange, NotNumber, IncOverflow, NoMemory};
ghost use Rattle.mm_update.specs.Form.{IsFault};

use mm_bson::Text;
use std::alloc::{AllocError, AllocFailed, Global};
use std::fmt;
use thiserror::Error;

/// Why a change is refused: by its form, for a document, or since the finished
/// document has `len` bytes, more than 16,777,216, or more than 100 levels.
#[derive(Drop, Error)]
pub enum ChangeFault {
    #[error("the change is wrong at {}", name.as_str())]
    BadChange { name: Text },
    #[error("the change isn't for the _id")]
    ChangesId,
    #[error("no number at {}", path.as_str())]
    NotNumber { path: Text },
    #[error("the sum at {} is past int64", path.as_str())]
    IncOverflow { path: Text },
    #[error("the document would have {len} bytes")]
    TooLong { len: u64 },
    #[error("the document would have more than 100 levels")]
    TooDeep,
    #[error("out of memory")]
    NoMemory,
}

impl fmt::Debug for ChangeFault {
    fn fmt<W: fmt::Write>(&self, f: &mut fmt::Formatter<W>) -> fmt::Result {
        write!(f, "{self}")
    }
}

impl From<AllocError> for ChangeFault {
    ghost from_gives = { λ _ e. e ≡ NoMemory };

    fn from(_e: AllocError) -> ChangeFault {
        ChangeFault::NoMemory
    }
}

impl<T: Drop> From<AllocFailed<T>> for ChangeFault {
    ghost from_gives = { λ _ e. e ≡ NoMemory };

    fn from(_e: AllocFailed<T>) -> ChangeFault {
        ChangeFault::NoMemory
    }
}

pub(crate) fn bad_change(name: &Text) -> ChangeFault
    ensures { IsFault result (BadChange name.now) }
{
    match name.copy() {
        Ok(name) => ChangeFault::BadChange { name },
        Err(_) => ChangeFault::NoMemory,
    }
}

pub(crate) fn not_number(path: &Text) -> ChangeFault
    ensures { IsFault result (NotNumber path.now) }
{
    match path.copy() {
        Ok(path) => ChangeFault::NotNumber { path },
        Err(_) => ChangeFault::NoMemory,
    }
}

pub(crate) fn inc_overflow(path: &Text) -> ChangeFault
    ensures { IsFault result (IncOverflow path.now) }
{
    match path.copy() {
        Ok(path) => ChangeFault::IncOverflow { path },
        Err(_) => ChangeFault::NoMemory,
    }
}
