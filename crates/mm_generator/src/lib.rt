//! Scripts that are drawn from a seed, to try the engine with.
//!
//! `generate` gives the actions of so many lines, exactly those of
//! specs/Generator: an index on each database, then inserts, updates, finds
//! and removes that are drawn one after another by a linear congruence, and
//! behind every 200th line a commit, a flush of each database, a sync, the
//! mark and a trim. One seed gives one script.
//!
//! Not promised: that memory suffices. A line's number that doesn't fit the
//! `_id` of its document, an i32, finds no memory.
#![tactic(auto)]

mod commands;
mod draws;
mod fields;
mod lines;

pub use lines::generate;
