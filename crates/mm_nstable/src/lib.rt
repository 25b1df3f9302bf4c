//! The names of a database: the nodes of its `.ns` file, over a draft (MongoDB 2.6, MMAPv1: NamespaceIndex).
//!
//! The file is as many nodes as fit, each a hash, a name and details. `table_of` (specs/Table) is the one function from its bytes to the
//! map from names to details, each with the node that holds it; `IsTable` says that each used node has a name and its hash, and that no
//! name stands twice.
//!
//! - `find` and `details` answer what the map has; `names` lists it by rising node; `free_nodes` counts the nodes that are free.
//! - `insert` and `remove` change the map by exactly that name and keep `IsTable`; `put_details` changes what it has under one name.
//! - `insert` takes the first free node in the order of its search, which begins at the hash, goes upwards, wraps, and looks at every
//!   node. `NsFull` comes exactly where no node is free.
//! - `free_ends` and `put_free_ends` read and write the ends of the chain of free extents, which one node names (specs/FreeChain).
//! - What a call changes it declares, and `weight` bounds it: one node, or the details of one. Nothing else of the draft changes, and a removed node is all zeros.
//! - Where there is no memory all is as it was. `find`, `details` and `free_nodes` take none.
//!
//! A search for a name that isn't there looks at all nodes, since a removed node leaves no mark. What details mean is for the crates above.
#![tactic(auto)]

mod fault;
mod free_chain;
mod hash;
mod nodes;
mod search;
mod table;

pub use fault::NsFault;
pub use free_chain::{free_ends, put_free_ends};
pub use table::{details, find, free_nodes, insert, names, put_details, remove};
