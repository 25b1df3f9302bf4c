//! Why a step isn't taken.

ghost use Rattle.std.specs.Prelude.{◌≡◌};
ghost use Rattle.mm_held.specs.declared.fault.Refused.TheVariants.{NoMemory as NoneLeft};

use mm_base::NoMemory;
use std::alloc::{AllocError, AllocFailed};
use thiserror::Error;

/// Why a step isn't taken. All is as before it.
#[derive(Clone, Copy, Debug, PartialEq, Eq, Error)]
pub enum Refused {
    /// What is opened and the step's draft weigh more than 134,217,728 bytes together: the group is to be closed first.
    #[error("the group would weigh {weight} bytes")]
    GroupFull { weight: u64 },
    #[error("out of memory")]
    NoMemory,
}

impl From<NoMemory> for Refused {
    ghost from_gives = { λ _ e. e ≡ NoneLeft };

    fn from(_error: NoMemory) -> Refused {
        Refused::NoMemory
    }
}

impl From<AllocError> for Refused {
    ghost from_gives = { λ _ e. e ≡ NoneLeft };

    fn from(_error: AllocError) -> Refused {
        Refused::NoMemory
    }
}

impl<T: Drop> From<AllocFailed<T>> for Refused {
    ghost from_gives = { λ _ e. e ≡ NoneLeft };

    fn from(_error: AllocFailed<T>) -> Refused {
        Refused::NoMemory
    }
}
