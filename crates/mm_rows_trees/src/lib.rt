//! Tests of the indexes of a collection, in the files of a new database.
//!
//! They show what no clause says: that the calls succeed with ample memory, and how many buckets there are. A helper that changes a draft says
//! that the index lists some pairs again; which, the clauses of `Tree` say, and the tests compare with a list of their own.
#![tactic(auto)]

#[cfg(test)]
mod answers;
#[cfg(test)]
mod drill;
#[cfg(test)]
mod files;
#[cfg(test)]
mod filling;
#[cfg(test)]
mod index;
#[cfg(test)]
mod keys;
#[cfg(test)]
mod names;
#[cfg(test)]
mod orders;
#[cfg(test)]
mod refusals;
