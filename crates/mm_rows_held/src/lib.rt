//! Tests of the crates by which a database is held: the rings, the probes, and the plain data of commands.
//!
//! Each shows what no clause says: that a call succeeds with ample memory, that printed texts are those that were worked out by hand, and
//! that a held database does what a plain model of it does.
#![tactic(auto)]

mod bench;
#[cfg(test)]
mod commands;
#[cfg(test)]
mod drawn;
#[cfg(test)]
mod fresh;
#[cfg(test)]
mod limits;
#[cfg(test)]
mod plain;
#[cfg(test)]
mod probes;
#[cfg(test)]
mod rings;
mod toy;
