//! When the files of a database stand for it (MongoDB 2.6, MMAPv1). Definitions and laws alone: no code stands here.
//!
//! - `Stands` (`specs/Database.antt`): there is no file and no collection; or the files have the database (`HasDatabase`). Then points 1 to 5
//!   hold of them (`HasShape` of `mm_check`), each collection has its node, its documents and its indexes, and no node and no record of an index
//!   is there besides.
//! - `Holds` (`specs/Documents.antt`): the live records of a namespace hold these documents, each once.
//! - `HasIndexAt` (`specs/Indexes.antt`): the pair at a position names the record of the index, and the root of a tree that lists one pair of
//!   key and place for each document, in the order of the index.
//!
//! Of files that stand (`laws.rt`): they stand for one database alone; new ones stand for the one without collections; each of the database's
//! names has one node, and the others are free; a change of one collection's records and of its indexes' leaves the other collections.
//!
//! What the calls of records and of trees make of a collection: its documents follow its records (`records.rt`), the pairs of an index follow
//! its documents (`items.rt`), and those of `_id_` stand in the documents' order (`ids.rt`).
//!
//! Not said here: that any call but the making of new files leaves files that stand.
#![tactic(auto)]

mod ids;
mod items;
mod laws;
mod records;

pub use ids::ids_are_in_order;
pub use items::pairs_follow_documents;
pub use laws::{new_files_stand, nodes_are_counted, one_database, others_stay};
pub use records::records_follow_documents;
