//! Tests of the durable side, over a disk in memory that stops where it is told to, and one to four held databases with a toy engine.
//!
//! They show what no clause says: that each call succeeds with ample memory, and that what a crash leaves, recovered, is a prefix of the
//! groups that a plain model kept, the same for all databases.
#![tactic(auto)]

#[cfg(test)]
mod bench;
#[cfg(test)]
mod closing;
#[cfg(test)]
mod crashes;
#[cfg(test)]
mod opening;
#[cfg(test)]
mod plain;
#[cfg(test)]
mod side;
mod subject;
mod toy;
#[cfg(test)]
mod turns;
