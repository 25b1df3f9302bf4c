//! Documents of BSON 1.0 (bsonspec.org), without double, undefined, regular
//! expression, DBPointer, code, symbol and decimal.
//!
//! A `Doc` is seen as its elements in their order, each a name and a `Value`;
//! names may repeat. It holds the bytes that spell them, which the documents and
//! arrays inside share.
//! - `Doc::parse` reads exactly the documents of at most 16,777,216 bytes and
//!   100 levels. Anything else it answers with the first fault in reading
//!   order and its offset.
//! - `new`, `push`, `copy` and `copy_of` build documents and arrays, whose bytes
//!   grow in place. They have at most 100 levels and fewer than 2^31 bytes.
//! - `get` follows a path, and `cmp` is a total order of values.
//! - `DocRef`, `ListRef` and `ValueRef` are the same in place: parts of bytes,
//!   seen as what the bytes spell, by the same clauses and without memory.
//!   `is_document` and `check` judge bytes as `Doc::parse` does.
//!
//! Not promised: that memory suffices. In specs/, Spelling is the grammar,
//! Reading the first fault, Faults what stands where it is, Order the order and
//! Path what a path leads to.
#![tactic(auto)]

mod checking;
mod doc;
mod fault;
mod kind;
mod laws;
mod list;
mod memory;
mod order;
mod path;
mod place;
mod raw;
mod shared;
mod text;
mod writing;

pub use checking::{MAX_LEN, MAX_LEVELS, check, is_document};
pub use doc::{Doc, Element, Value, ValueList};
pub use fault::BsonFault;
pub use laws::{arrays_are_documents, spellings_are_unique};
pub use list::DocList;
pub use order::{class, cmp, order_is_total};
pub use place::{DocRef, FieldRef, Fields, Items, ListRef, ObjectIdRef, TextRef, ValueRef};
pub use text::{Blob, Text, is_text};
