//! Why there is no new extent.

ghost use Rattle.std.specs.Prelude.{◌≡◌};
ghost use Rattle.mm_extents.specs.declared.fault.SpaceFault.TheVariants.{NoMemory};

use thiserror::Error;

/// Why there is no new extent.
#[derive(Clone, Copy, Debug, PartialEq, Eq, Error)]
pub enum SpaceFault {
    /// No free extent is long enough, nor the unused rest of the last file, nor a file that isn't there yet.
    #[error("no space")]
    NoSpace,
    /// There was no memory.
    #[error("out of memory")]
    NoMemory,
}

impl From<mm_base::NoMemory> for SpaceFault {
    ghost from_gives = { λ _ e. e ≡ NoMemory };

    fn from(_error: mm_base::NoMemory) -> SpaceFault {
        SpaceFault::NoMemory
    }
}
