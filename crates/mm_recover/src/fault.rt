//! Why a recovery gives up.

ghost use Rattle.std.specs.Prelude.{◌≡◌};
ghost use Rattle.mm_recover.specs.Faults.{no_memory};

use mm_base::NoMemory;
use mm_outside::Device;
use std::alloc::{AllocError, AllocFailed};
use thiserror::Error;

/// Why a recovery, or the loading of a database, gave up.
#[derive(Clone, Copy, Debug, PartialEq, Eq, Error)]
pub enum Recover {
    /// The disk failed. Its count of faults rose.
    #[error("the disk failed")]
    DiskFault,
    /// Memory was wanting.
    #[error("out of memory")]
    NoMemory,
    /// The journal's file of this number begins with the header of another version, or with none of a journal, and then it
    /// isn't the last.
    #[error("file {file} of the journal has a bad header")]
    BadHeader { file: u32 },
    /// The journal has the section `found` where `expected` was to come, or where it was to come at the latest.
    #[error("section {found} of the journal stands where {expected} was to come")]
    JournalGap { expected: u64, found: u64 },
    /// The database's file of this number has more bytes than it may have.
    #[error("file {file} has {len} bytes")]
    BadLength { file: u32, len: u64 },
}

impl From<Device> for Recover {
    ghost use Rattle.mm_recover.specs.Faults.{fault_of};

    ghost from_gives = { λ d e. e ≡ fault_of d };

    fn from(error: Device) -> Self {
        match error {
            Device::Fault => Recover::DiskFault,
            Device::NoMemory => Recover::NoMemory,
        }
    }
}

impl From<NoMemory> for Recover {
    ghost from_gives = { λ _ e. e ≡ no_memory };

    fn from(_: NoMemory) -> Self {
        Recover::NoMemory
    }
}

impl From<AllocError> for Recover {
    ghost from_gives = { λ _ e. e ≡ no_memory };

    fn from(_: AllocError) -> Self {
        Recover::NoMemory
    }
}

impl<T: Drop> From<AllocFailed<T>> for Recover {
    ghost from_gives = { λ _ e. e ≡ no_memory };

    fn from(_: AllocFailed<T>) -> Self {
        Recover::NoMemory
    }
}
