//! Namespaces as they come and go: the files of a new database, one more namespace, and one less (MongoDB 2.6, MMAPv1).
//!
//! - `set_up` makes the files of a new database: `.ns` with the node of the free chain and that of the list of indexes, and data file 0
//!   without extents. The files then stand, and nothing stands in them (`IsNew`, specs/Fresh).
//! - `add` puts a namespace without extents into a free node. The files stand as they stood, with the same shape: no record, extent or
//!   list of any other namespace changes.
//! - `drop_namespace` makes the extents of a namespace the last of the free chain and frees its node (`IsDropped`, specs/Dropped). The
//!   records, chains and lists of all other namespaces stay. Neither changes the room of the files.
//!
//! After an error of `set_up` or `drop_namespace` the draft is to be dropped; after one of `add` all is as it was. How a name is made, and what is in a
//! namespace, is for the crates above.
#![tactic(auto)]

mod adding;
mod dropping;
mod fresh;
mod setup;

pub use adding::add;
pub use dropping::drop_namespace;
pub use mm_nstable::NsFault;
pub use setup::set_up;
