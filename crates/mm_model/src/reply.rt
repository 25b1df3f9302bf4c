//! Replies.

ghost use Rattle.std.specs.Prelude.{◌≡◌, IfOk};

use mm_base::NoMemory;
use mm_bson::{Doc, DocList, Text};

/// What a command comes to. `Done` and `Found` say that it was carried out;
/// every other reply is a refusal, which leaves the database as it was.
#[derive(Drop)]
pub enum Reply {
    /// How many documents, collections or indexes the command concerned.
    Done(u64),
    /// The documents that were found.
    Found(DocList),
    /// The document to be stored has `len` bytes, more than 16,777,216.
    DocTooLarge { len: u64 },
    /// The changed document has more than 100 levels.
    DocTooDeep,
    /// The `_id` of the document to be stored is an array.
    IdArray,
    /// The filter's first operator that is none, or has a wrong operand.
    BadOperator { name: Text },
    /// The operator or path at which the change is wrong.
    BadChange { name: Text },
    /// The change is for the `_id`.
    ChangesId,
    /// There is no number at the path to be added to, or none to add.
    NotNumber { path: Text },
    /// The sum at the path is past int64.
    IncOverflow { path: Text },
    /// There is no collection of the name.
    NoCollection { name: Text },
    /// There is no index of the name.
    NoIndex { name: Text },
    /// The index `_id_` stays with its collection.
    IdIndex,
    /// An index of the name is there, with other keys or another uniqueness.
    IndexDiffers { name: Text },
    /// The collection has ten indexes.
    TooManyIndexes,
    /// A value to be keyed by the index, of this full name, is an array.
    ArrayKey { index: Text },
    /// The key for the index has `len` bytes, more than 1024.
    KeyTooLong { index: Text, len: u64 },
    /// The key stands in the unique index under another document (E11000).
    Duplicate { index: Text, key: Doc },
    /// The command needs more nodes of the `.ns` file than are free.
    NsFull,
    /// An allocation found no fit in the data files.
    NoSpace,
    /// The command's changes weigh more than 67,108,864.
    OpTooLarge { weight: u64 },
}

impl Reply {
    /// The reply again.
    pub fn copy(&self) -> Result<Reply, NoMemory>
        ensures { IfOk result (λ r. r ≡ self.now) }
    {
        Ok(match self {
            Reply::Done(n) => Reply::Done(*n),
            Reply::Found(documents) => Reply::Found(documents.copy()?),
            Reply::DocTooLarge { len } => Reply::DocTooLarge { len: *len },
            Reply::DocTooDeep => Reply::DocTooDeep,
            Reply::IdArray => Reply::IdArray,
            Reply::BadOperator { name } => Reply::BadOperator { name: name.copy()? },
            Reply::BadChange { name } => Reply::BadChange { name: name.copy()? },
            Reply::ChangesId => Reply::ChangesId,
            Reply::NotNumber { path } => Reply::NotNumber { path: path.copy()? },
            Reply::IncOverflow { path } => Reply::IncOverflow { path: path.copy()? },
            Reply::NoCollection { name } => Reply::NoCollection { name: name.copy()? },
            Reply::NoIndex { name } => Reply::NoIndex { name: name.copy()? },
            Reply::IdIndex => Reply::IdIndex,
            Reply::IndexDiffers { name } => Reply::IndexDiffers { name: name.copy()? },
            Reply::TooManyIndexes => Reply::TooManyIndexes,
            Reply::ArrayKey { index } => Reply::ArrayKey {
                index: index.copy()?,
            },
            Reply::KeyTooLong { index, len } => Reply::KeyTooLong {
                index: index.copy()?,
                len: *len,
            },
            Reply::Duplicate { index, key } => Reply::Duplicate {
                index: index.copy()?,
                key: key.copy()?,
            },
            Reply::NsFull => Reply::NsFull,
            Reply::NoSpace => Reply::NoSpace,
            Reply::OpTooLarge { weight } => Reply::OpTooLarge { weight: *weight },
        })
    }
}
