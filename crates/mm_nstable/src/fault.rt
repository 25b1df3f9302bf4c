//! Why a name isn't put in.

ghost use Rattle.std.specs.Prelude.{◌≡◌};
ghost use Rattle.mm_nstable.specs.declared.fault.NsFault.TheVariants.{NoMemory};

use thiserror::Error;

/// Why a name isn't put in.
#[derive(Clone, Copy, Debug, PartialEq, Eq, Error)]
pub enum NsFault {
    /// No node is free.
    #[error("no free node")]
    NsFull,
    /// There was no memory. All is as it was before the call.
    #[error("out of memory")]
    NoMemory,
}

impl From<mm_base::NoMemory> for NsFault {
    ghost from_gives = { λ _ e. e ≡ NoMemory };

    fn from(_error: mm_base::NoMemory) -> NsFault {
        NsFault::NoMemory
    }
}
