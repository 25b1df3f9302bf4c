//! Tests of the crates from names and numbers in bytes up to the files of a database.
//!
//! They show what no clause says: that each public call succeeds with ample memory, and that the clauses are the formats'
//! rules. Expected values were counted by hand from the formats. A helper that owns views or drafts makes its calls and
//! answers plain numbers, bytes or a text; the tests compare.
#![tactic(auto)]

#[cfg(test)]
mod base;
#[cfg(test)]
mod frames;
#[cfg(test)]
mod journal_frames;
#[cfg(test)]
mod judging;
#[cfg(test)]
mod nstable;
#[cfg(test)]
mod ranges;
#[cfg(test)]
mod views;
