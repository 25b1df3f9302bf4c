//! Why a script is refused.

ghost use Rattle.std.specs.Prelude.{◌≡◌};
ghost use Rattle.mm_script.specs.declared.fault.ScriptFault.TheVariants.{NoMemory as NoMemoryForScript};
ghost use Rattle.mm_script.specs.Texts.{what_text};

use mm_base::NoMemory;
use std::alloc::{AllocError, AllocFailed};
use thiserror::Error;

/// What a part of a line should have been and isn't, or why a script can't
/// have the line at all.
#[derive(Clone, Copy, Debug, PartialEq, Eq, Error)]
pub enum LineWhat {
    /// The line's bytes are no UTF-8.
    #[error("utf-8")]
    Utf8,
    /// A session is 1 to 8.
    #[error("session")]
    Session,
    /// A database is one of those that the script is read with.
    #[error("database")]
    Database,
    /// There are eight verbs.
    #[error("verb")]
    Verb,
    /// A collection has 1 to 60 letters, digits, `_` and `.`, which don't
    /// begin with `system.`.
    #[error("collection")]
    Collection,
    /// An index has 1 to 40 letters, digits and `_`, and none is made under
    /// the name `_id_`.
    #[error("index")]
    Index,
    /// A document is due.
    #[error("document")]
    Document,
    /// The document is no specification of keys of at most 65,536 bytes.
    #[error("specification")]
    Specification,
    /// Something stands behind the end of the command or step.
    #[error("word")]
    Word,
    /// There is no such step, or none is allowed.
    #[error("step")]
    Step,
    /// The line is past the most lines of a script.
    #[error("too many lines")]
    TooManyLines,
    /// The line holds the byte past the most bytes of a script.
    #[error("too long")]
    TooLong,
}

impl LineWhat {
    /// The word, or words, that the program prints for it.
    pub fn text(&self) -> &'static str
        ensures { result.now ≡ what_text self.now }
    {
        match self {
            LineWhat::Utf8 => "utf-8",
            LineWhat::Session => "session",
            LineWhat::Database => "database",
            LineWhat::Verb => "verb",
            LineWhat::Collection => "collection",
            LineWhat::Index => "index",
            LineWhat::Document => "document",
            LineWhat::Specification => "specification",
            LineWhat::Word => "word",
            LineWhat::Step => "step",
            LineWhat::TooManyLines => "too many lines",
            LineWhat::TooLong => "too long",
        }
    }
}

/// Why no script was read.
#[derive(Clone, Copy, Debug, PartialEq, Eq, Error)]
pub enum ScriptFault {
    /// Line `number`, counted from 1, is the first that a script can't have
    /// there, and `what` is the first part of it that fails from the left.
    #[error("line {number}: {what}")]
    Line { number: u32, what: LineWhat },
    #[error("out of memory")]
    NoMemory,
}

impl From<NoMemory> for ScriptFault {
    ghost from_gives = { λ _ e. e ≡ NoMemoryForScript };

    fn from(_error: NoMemory) -> ScriptFault {
        ScriptFault::NoMemory
    }
}

impl From<AllocError> for ScriptFault {
    ghost from_gives = { λ _ e. e ≡ NoMemoryForScript };

    fn from(_error: AllocError) -> ScriptFault {
        ScriptFault::NoMemory
    }
}

impl<T: Drop> From<AllocFailed<T>> for ScriptFault {
    ghost from_gives = { λ _ e. e ≡ NoMemoryForScript };

    fn from(_error: AllocFailed<T>) -> ScriptFault {
        ScriptFault::NoMemory
    }
}
