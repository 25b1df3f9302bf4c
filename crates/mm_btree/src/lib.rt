//! What the buckets of an index are together: a tree (MongoDB 2.6, MMAPv1).
//!
//! `specs/Trees.antt` says when a subtree stands in buckets at places (`Stands`): its leaves have one depth, each child names its parent,
//! each bucket below the root has a pair, and the pairs read in order are its list. `specs/Changes.antt` says what the steps of an insert
//! and a removal do to buckets: one is written whole or parted in two, a root is put over two, two neighbours are joined or parted anew.
//!
//! `proofs/` has the laws: children go with the pairs where a bucket is edited (`TwoLists`), a subtree stands in any buckets that are the same at its places (`Frames`), some subtrees give way to others
//! among their neighbours (`Moved`), a bucket that waits for new pairs and children is written as one or as two (`Settling`), and two
//! neighbours with the pair between are such a bucket (`Joined`). They hold for any buckets, wherever they lie.
//!
//! `laws.rt` has each of them as the contract of a function that does nothing.
//!
//! The calls work on any `NodeStore`, a map from places to buckets that can be read, written, and given more places. `find` gives the
//! record of the first pair whose key is equal, and reads one path. `insert` puts a pair in its place, parting buckets up to a new root.
//! `remove` takes a pair out, and joins a bucket that has none left with its neighbour, down to a lower root.
//! `range` gives the records of the pairs between two bounds in their order, and `walk` those of all. `make` makes a tree without pairs.
//!
//! A call that changes a tree bounds how many places it asks for and how much it declares, whether it is done or gives up
//! (`specs/Costs.antt`).
#![tactic(auto)]

mod adding;
mod carried;
mod exchanging;
mod fault;
mod joining;
mod laws;
mod making;
mod mending;
mod outcome;
mod raised;
mod ranges;
mod removing;
mod search;
mod settle;
mod store;
mod unique;
mod whole;

pub use fault::TreeFault;
pub use laws::{
    asks_within_demand, children_go_along, high_trees_are_large, high_trees_have_many_pairs,
    neighbours_changed, order_is_kept, parted_is_split, rejoined, rooted, settled,
    stands_elsewhere, thinned_then_joined, weighs_within_cost,
};
pub use making::make;
pub use ranges::{range, walk};
pub use search::find;
pub use store::NodeStore;
pub use unique::insert;
pub use whole::{Root, remove};
