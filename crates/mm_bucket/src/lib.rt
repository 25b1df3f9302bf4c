//! The bucket of an index: a B-tree node of MMAPv1 (MongoDB 2.6), 8192 bytes.
//!
//! A `Bucket` is seen as what it holds: its parent, its pairs of a key and a record in their order, each with the child before it, and the
//! child behind all of them. No call takes memory.
//! - `read` takes exactly the bytes that keep the format's rules of one bucket, the order of its pairs apart; `bytes` are a spelling of
//!   what is held.
//! - `find` looks for a pair by halves, by the order of the index's specification and then by the record's place. It copies no key.
//! - `insert_at`, `remove_at`, `split`, `merge`, `set_left`, `set_next` and `set_parent` are edits of what is held, each an equation;
//!   `fits` says beforehand whether a key has room. `put` puts a pair and the child behind it in, and parts the bucket where they have
//!   no room.
//! - `laws` has what follows of the definitions: bytes are one bucket at most, keys leave no gap, and the parent may be written alone.
//!
//! Not promised: that pairs stand in an order, which only `find` asks. In specs/, Pairs says what a bucket holds, Layout how bytes spell
//! it, Rules what one bucket may hold and Order the order of pairs.
#![tactic(auto)]

mod bucket;
mod builder;
mod find;
mod laws;
mod put;
mod reading;

pub use bucket::{BUCKET_LEN, Bucket};
pub use laws::{keys_fill, parent_alone, spelled_once};
