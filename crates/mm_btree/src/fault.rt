//! Why a call of a tree gives up.

ghost use Rattle.std.specs.Prelude.{◌≡◌};
ghost use Rattle.mm_btree.specs.declared.fault.TreeFault.TheVariants.{NoMemory as NoMemoryForTree};

use mm_base::NoMemory;
use std::alloc::{AllocError, AllocFailed};
use thiserror::Error;

/// Why a call of a tree gives up.
#[derive(Clone, Copy, Debug, PartialEq, Eq, Error)]
pub enum TreeFault {
    #[error("an equal key of another record is in the index")]
    Duplicate,
    #[error("no room for a bucket")]
    NoSpace,
    #[error("out of memory")]
    NoMemory,
}

impl From<NoMemory> for TreeFault {
    ghost from_gives = { λ _ e. e ≡ NoMemoryForTree };

    fn from(_: NoMemory) -> TreeFault {
        TreeFault::NoMemory
    }
}

impl From<AllocError> for TreeFault {
    ghost from_gives = { λ _ e. e ≡ NoMemoryForTree };

    fn from(_: AllocError) -> TreeFault {
        TreeFault::NoMemory
    }
}

impl<T: Drop> From<AllocFailed<T>> for TreeFault {
    ghost from_gives = { λ _ e. e ≡ NoMemoryForTree };

    fn from(_: AllocFailed<T>) -> TreeFault {
        TreeFault::NoMemory
    }
}
