//! The indexes of a collection: trees of buckets over the records of a node (MongoDB 2.6, MMAPv1).
//!
//! - `Store` is a draft as a store of the buckets of a node, each of whose records is one. What it holds at a place is read from the files
//!   alone (`bucket_in`, specs/Buckets): the node's extents are followed from its details, and the records of each from its header. That
//!   these are the live records of the node is proved of all files that stand. It says from what draft it was made, and that all other
//!   namespaces have kept their records, names and details since (`Keeps`). Once a call gives up it has no buckets.
//! - `View` is the same of a draft that is only read.
//! - `Tree` is an index. `find`, `range` and `walk` answer of the sorted list of its pairs (`HasIndex`, specs/Indexes); `insert` puts a pair
//!   in, `remove` takes one out, and `make` makes an index. After each the list is as it should be, and what stands beside the index is as it
//!   was (`GoesBeside`).
//!
//! A bucket is read from its record without memory, and written whole or its parent alone. A call that changes an index lends the draft to a
//! store for its time, which counts the places that are asked for. An index is at most 15 levels high (`indexes_are_low`), so a call asks for 32
//! places at the most (specs/Costs): `NoSpace` comes only where no deleted block of the node has room for so many buckets (`scarce`), and a
//! deleted block that has room for more leaves one for what is asked later (`Serves`). What a call declares is bounded by the height of the tree
//! (`weight`). Not said here: what is left of an extent that a call adds.
#![tactic(auto)]

mod asked;
mod buckets;
mod changes;
mod height;
mod laws;
mod lending;
mod roots;
mod store;
mod tree;
mod view;

pub use laws::indexes_are_low;
pub use store::Store;
pub use tree::Tree;
pub use view::View;
