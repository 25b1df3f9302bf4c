//! Why reading a line stops.

ghost use Rattle.std.specs.Prelude.{◌≡◌};
ghost use Rattle.mm_script.specs.declared.stop.Stop.TheVariants.{NoMemory as NoMemoryForLine};

use crate::fault::LineWhat;
use mm_base::NoMemory;
use std::alloc::{AllocError, AllocFailed};

/// Why reading a line stops.
#[derive(Clone, Copy, Debug, Drop)]
pub(crate) enum Stop {
    /// What the text isn't where reading has come to.
    What(LineWhat),
    NoMemory,
}

impl From<NoMemory> for Stop {
    ghost from_gives = { λ _ e. e ≡ NoMemoryForLine };

    fn from(_error: NoMemory) -> Stop {
        Stop::NoMemory
    }
}

impl From<AllocError> for Stop {
    ghost from_gives = { λ _ e. e ≡ NoMemoryForLine };

    fn from(_error: AllocError) -> Stop {
        Stop::NoMemory
    }
}

impl<T: Drop> From<AllocFailed<T>> for Stop {
    ghost from_gives = { λ _ e. e ≡ NoMemoryForLine };

    fn from(_error: AllocFailed<T>) -> Stop {
        Stop::NoMemory
    }
}
