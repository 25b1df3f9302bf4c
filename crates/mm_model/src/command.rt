//! Commands.

ghost use Rattle.std.specs.Prelude.{◌≡◌, IfOk};

use mm_base::{Name, NoMemory};
use mm_bson::Doc;
use mm_keys::KeySpec;

/// What a session asks of one collection of a database. Which names a command
/// may have is `IsWellFormed` in specs/WellFormed.
#[derive(Drop)]
pub enum Command {
    /// Puts a document in, which begins with `_id`. The collection is made
    /// where it isn't there.
    Insert {
        coll: Name,
        doc: Doc,
    },
    /// Asks for the documents that match, in the order of `_id`, or of an
    /// index's keys and then of `_id`.
    Find {
        coll: Name,
        filter: Doc,
        index: Option<Name>,
    },
    /// Changes the first document that matches, in the order of `_id`, or all
    /// of them (`multi`).
    Update {
        coll: Name,
        filter: Doc,
        change: Doc,
        multi: bool,
    },
    /// Takes out all documents that match, or the first of them (`one`).
    Remove {
        coll: Name,
        filter: Doc,
        one: bool,
    },
    /// Makes a collection with its `_id_` index.
    Create {
        coll: Name,
    },
    /// Takes a collection out, with its indexes.
    Drop {
        coll: Name,
    },
    /// Makes an index, and the collection where it isn't there.
    EnsureIndex {
        coll: Name,
        name: Name,
        spec: KeySpec,
        unique: bool,
    },
    /// Takes an index out.
    DropIndex {
        coll: Name,
        name: Name,
    },
}

impl Command {
    /// The command again. It takes memory for its documents alone.
    pub fn copy(&self) -> Result<Command, NoMemory>
        ensures { IfOk result (λ c. c ≡ self.now) }
    {
        Ok(match self {
            Command::Insert { coll, doc } => Command::Insert {
                coll: *coll,
                doc: doc.copy()?,
            },
            Command::Find {
                coll,
                filter,
                index,
            } => Command::Find {
                coll: *coll,
                filter: filter.copy()?,
                index: *index,
            },
            Command::Update {
                coll,
                filter,
                change,
                multi,
            } => Command::Update {
                coll: *coll,
                filter: filter.copy()?,
                change: change.copy()?,
                multi: *multi,
            },
            Command::Remove { coll, filter, one } => Command::Remove {
                coll: *coll,
                filter: filter.copy()?,
                one: *one,
            },
            Command::Create { coll } => Command::Create { coll: *coll },
            Command::Drop { coll } => Command::Drop { coll: *coll },
            Command::EnsureIndex {
                coll,
                name,
                spec,
                unique,
            } => Command::EnsureIndex {
                coll: *coll,
                name: *name,
                spec: spec.copy()?,
                unique: *unique,
            },
            Command::DropIndex { coll, name } => Command::DropIndex {
                coll: *coll,
                name: *name,
            },
        })
    }
}
