//! What a database is to its users, and what each command makes of it.
//!
//! A database is a map from names to collections; a collection is its
//! documents in the order of `_id`, and its indexes by position. It has no
//! records, places, buckets or files. `after` in specs/After is a function: to
//! a command it gives one reply and one new database. A history is a list of
//! groups of entries, and `fold` in specs/History the database after them.
//!
//! - `Command`, `Reply`, `Entry`, `Action`, `Finding`, `Report` and `CheckFault`
//!   are plain data; a copy is equal to its original.
//! - The laws say of `after` in other words what it keeps and what it gives.
//!
//! Not promised: that memory suffices. Nothing here is carried out: engines
//! over bytes are proved to answer as `after` does. In specs/, Database says
//! what a database is, Keyed what
//! keys ask of a document, Commands one definition a command, After and History
//! what a command and a run of commands make.
#![tactic(auto)]

mod action;
mod command;
mod finding;
mod laws;
mod reply;

pub use action::{Action, Entry};
pub use command::Command;
pub use finding::{CheckFault, Finding, Report, What};
pub use laws::{
    create_is_full, databases_stay_databases, find_counts_what_matches, finds_keep_the_database,
    folds_join, folds_pass_prefixes, indexing_keeps_documents, inserted_is_found,
    other_collections_stay, refusals_keep_the_database, remove_all_leaves_none,
    remove_counts_what_matches, room_stays, update_counts_what_matches, worked_examples,
};
pub use reply::Reply;
