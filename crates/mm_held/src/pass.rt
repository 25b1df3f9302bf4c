//! A session's end for one database.

use mm_model::Entry;
use mm_tie::Taker;

/// An entry with its place in the log and the number of its group's section; of the opened group that is the number that it will have.
#[derive(Drop)]
pub struct Mark {
    pub place: u64,
    pub section: u64,
    pub entry: Entry,
}

/// One session's end for one database: what the database told this session.
#[derive(Drop)]
pub struct Pass {
    /// The session's number less one.
    pub place: usize,
    pub taker: Taker<Mark>,
}
