//! Why a document is no specification, and why it has no key.

ghost use Rattle.std.specs.Prelude.{◌≡◌};
ghost use Rattle.mm_keys.specs.declared.fault.SpecFault.TheVariants.{NoMemory as NoMemoryForSpec};
ghost use Rattle.mm_keys.specs.declared.fault.KeyFault.TheVariants.{NoMemory as NoMemoryForKey};

use std::alloc::AllocError;
use thiserror::Error;

/// Why a document is no specification of keys.
#[derive(Clone, Copy, Debug, PartialEq, Eq, Error)]
pub enum SpecFault {
    #[error("no specification of keys: it has 1 to 31 different paths, each with 1 or -1")]
    BadSpec,
    #[error("out of memory")]
    NoMemory,
}

impl From<AllocError> for SpecFault {
    ghost from_gives = { λ _ e. e ≡ NoMemoryForSpec };

    fn from(_e: AllocError) -> SpecFault {
        SpecFault::NoMemory
    }
}

/// Why a document has no key: a path leads to an array, or the key would have
/// `len` bytes, which are more than 1024.
#[derive(Clone, Copy, Debug, PartialEq, Eq, Error)]
pub enum KeyFault {
    #[error("a path of the index leads to an array")]
    ArrayKey,
    #[error("the key would have {len} bytes")]
    KeyTooLong { len: u64 },
    #[error("out of memory")]
    NoMemory,
}

impl From<AllocError> for KeyFault {
    ghost from_gives = { λ _ e. e ≡ NoMemoryForKey };

    fn from(_e: AllocError) -> KeyFault {
        KeyFault::NoMemory
    }
}
