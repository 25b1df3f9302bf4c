//! Tests of recovery, over a disk in memory that stops where it is told to.
//!
//! They show what no clause says: that a recovery succeeds with ample memory, on journals whose bytes are put together here and not by
//! the store's own writer, and what lies on the disk after it, stopped at each of its changing calls, and stopped again; and what is
//! seen of one database's views that were loaded with the sections above the lsn laid over its files.
#![tactic(auto)]

#[cfg(test)]
mod journals;
#[cfg(test)]
mod loads;
#[cfg(test)]
mod rows;
#[cfg(test)]
mod stops;
