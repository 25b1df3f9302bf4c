//! Tests of the journal's sections and files, over a disk in memory.
//!
//! They show what no clause says: that each public call succeeds with ample memory, that sections are the bytes that were worked out
//! outside of this repository, and what stays on a disk that fails once in a call.
#![tactic(auto)]

#[cfg(test)]
mod files;
#[cfg(test)]
mod sections;
