//! Keys of documents, by which an index is in order.
//!
//! A `KeySpec` is seen as its document: 1 to 31 different paths in order, each
//! with 1 or -1. A key is a document, too: for each path of the specification
//! the value there, or null where it is missing, under the empty name.
//! - `KeySpec::from_doc` takes exactly the documents that are specifications.
//! - `key_of` gives a document's key. It refuses exactly the documents in which
//!   a path leads to an array, and after those the keys of more than 1024 bytes.
//! - `is_key` says whether bytes are a document without names, as each key.
//! - `key_cmp` is a total order of keys. The first field that differs decides,
//!   turned round where the specification has -1.
//! - `key_of_in_place` and `key_cmp_in_place` are the same for documents in place.
//!
//! Not promised: that memory suffices. In specs/, Specification says which
//! documents are specifications, Key what a key is and KeyOrder the order.
#![tactic(auto)]

mod fault;
mod key;
mod nameless;
mod order;
mod specification;

pub use fault::{KeyFault, SpecFault};
pub use key::{MAX_KEY_LEN, key_of, key_of_in_place};
pub use nameless::is_key;
pub use order::{key_cmp, key_cmp_in_place, key_order_by_fields, key_order_is_total};
pub use specification::{KeySpec, MAX_FIELDS};
