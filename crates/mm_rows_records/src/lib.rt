//! Tests of the records of a namespace in the files of a new database.
//!
//! They show what no clause says: that the calls succeed with ample memory, where the formats' example places its extents, when the files
//! are full, and that many draws leave each payload as a plain list has it. A helper that changes a draft says that the files stand again.
#![tactic(auto)]

#[cfg(test)]
mod calls;
#[cfg(test)]
mod draws;
#[cfg(test)]
mod layout;
#[cfg(test)]
mod names;
#[cfg(test)]
mod rows;
