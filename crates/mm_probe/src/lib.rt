//! What looks on while a database's commands are carried out.
//!
//! - A `Probe` is told each entry of its database once, in the order of the log, and reports in the end. Its state is a list of numbers: the
//!   fold of its own rule over the entries that it was told.
//! - `Counter` counts the entries, those that were carried out, and those that were refused.
//!
//! A probe is told while the database is held, so it takes no memory and can't change an answer.
#![tactic(auto)]

mod counter;
mod probe;

pub use counter::Counter;
pub use probe::Probe;
