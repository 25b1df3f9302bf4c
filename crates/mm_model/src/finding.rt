//! What a check of a database's files finds, and what it tells where it finds nothing.

use thiserror::Error;

/// Which part of the files is wrong.
#[derive(Clone, Copy, Debug, PartialEq, Eq)]
pub enum What {
    /// A file's length or header.
    File,
    /// A node of the `.ns` file.
    Node,
    /// An extent's header.
    Extent,
    /// A chain of extents.
    Extents,
    /// An extent on no chain.
    Lost,
    /// A chain of records.
    Chain,
    /// A list of deleted blocks.
    Deleted,
    /// A gap or an overlap between blocks.
    Tiling,
    /// A namespace's counts or constant fields.
    Counts,
    /// A document.
    Document,
    /// An index's place in its collection, its record or its node.
    Index,
    /// A bucket.
    Bucket,
    /// A pair of an index.
    Pair,
}

/// A fault of a database's files: the file (0x7fffffff is the `.ns` file), the
/// offset in it, in bytes, and what is wrong there.
#[derive(Clone, Copy, Debug, PartialEq, Eq)]
pub struct Finding {
    pub file: u32,
    pub at: u32,
    pub what: What,
}

/// How much the files of a database hold in which a check finds nothing.
#[derive(Clone, Copy, Debug, PartialEq, Eq)]
pub struct Report {
    /// The data files, without `.ns`.
    pub files: u32,
    pub collections: u64,
    /// The live records of the collections.
    pub documents: u64,
    pub indexes: u64,
    pub buckets: u64,
}

/// Why files aren't accepted.
#[derive(Clone, Copy, Debug, PartialEq, Eq, Error)]
pub enum CheckFault {
    /// They don't stand for a database; this is the first finding.
    #[error("the files don't stand for a database")]
    Found(Finding),
    #[error("out of memory")]
    NoMemory,
}
