//! Tests of the store's top call, over a disk, a source and a sink in memory.
//!
//! They stand in a crate of their own, above all others, so that no lower crate is proved twice for them. Each shows what no
//! clause says: that a call succeeds with ample memory, that printed texts and bytes of a file are those that were worked out by
//! hand from the formats, and what a user sees where the outside fails.
//!
//! A case is a row of steps in one of the tables of `play` and `dump`; `steps` does them over a disk, and `calls` makes the call.
#![tactic(auto)]

#[cfg(test)]
mod calls;
#[cfg(test)]
mod dump;
#[cfg(test)]
mod play;
#[cfg(test)]
mod steps;
