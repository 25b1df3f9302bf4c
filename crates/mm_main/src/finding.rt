//! What is first wrong in a data file.

ghost use Rattle.std.specs.Prelude.{◌≡◌};
ghost use Rattle.mm_main.specs.declared.finding.Unreadable.TheVariants.{NoMemory};

use mm_base::NoMemory;
use std::alloc::{AllocError, AllocFailed};

/// A part of a data file's format.
#[derive(Clone, Copy)]
pub enum What {
    /// The file's length or its header.
    File,
    /// The extent's header.
    Extent,
    /// The chain of the extent's records.
    Chain,
    /// The layout: records back to back, and one deleted block behind them.
    Tiling,
    /// The document of a record.
    Document,
}

/// A place of the file, and what is wrong there.
#[derive(Clone, Copy)]
pub struct Finding {
    /// The offset in the file, in bytes.
    pub at: usize,
    pub what: What,
}

/// Why a file isn't read.
#[derive(Clone, Copy)]
pub enum Unreadable {
    /// What is first wrong in it.
    Found(Finding),
    NoMemory,
}

impl From<NoMemory> for Unreadable {
    ghost from_gives = { λ _ e. e ≡ NoMemory };

    fn from(_error: NoMemory) -> Unreadable {
        Unreadable::NoMemory
    }
}

impl From<AllocError> for Unreadable {
    ghost from_gives = { λ _ e. e ≡ NoMemory };

    fn from(_error: AllocError) -> Unreadable {
        Unreadable::NoMemory
    }
}

impl<T: Drop> From<AllocFailed<T>> for Unreadable {
    ghost from_gives = { λ _ e. e ≡ NoMemory };

    fn from(_error: AllocFailed<T>) -> Unreadable {
        Unreadable::NoMemory
    }
}
