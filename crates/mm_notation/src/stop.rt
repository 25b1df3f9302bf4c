//! Why reading stops before a value's end.

ghost use Rattle.std.specs.Prelude.{◌≡◌};
ghost use Rattle.mm_notation.specs.declared.stop.Stop.TheVariants.{NoMemory};

use crate::fault::NoMemory;
use std::alloc::{AllocError, AllocFailed};

/// Where reading stops.
#[derive(Clone, Copy, Drop)]
pub(crate) enum Stop<'a> {
    /// The first byte of this text can't stand there; or the text ends too
    /// early, where this is empty.
    At(&'a [u8]),
    NoMemory,
}

impl<'a> From<AllocError> for Stop<'a> {
    ghost from_gives = { λ _ e. e ≡ NoMemory };

    fn from(_error: AllocError) -> Stop<'a> {
        Stop::NoMemory
    }
}

impl<'a, T: Drop> From<AllocFailed<T>> for Stop<'a> {
    ghost from_gives = { λ _ e. e ≡ NoMemory };

    fn from(_error: AllocFailed<T>) -> Stop<'a> {
        Stop::NoMemory
    }
}

impl<'a> From<NoMemory> for Stop<'a> {
    ghost from_gives = { λ _ e. e ≡ NoMemory };

    fn from(_error: NoMemory) -> Stop<'a> {
        Stop::NoMemory
    }
}
