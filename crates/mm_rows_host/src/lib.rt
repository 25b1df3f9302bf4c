//! Tests of what lies outside: the disk, the source and the sink in memory, and the store's adapters over the real thing.
//!
//! `outside` has what is asked of each of them, and tells the answers as a text. A folder in which a sync was left out reads
//! like any other, and no clause speaks of what the system makes of its calls. So the system of `watched` is the real one,
//! takes and gives few bytes at a time where it is told to, and writes down what it made, wrote, cut, took and synced, in
//! order. `folder` compares that whole, with the answers: a sync that is dropped, or comes too early, fails a test.
#![tactic(auto)]

#[cfg(test)]
mod folder;
#[cfg(test)]
mod memory;
#[cfg(test)]
mod outside;
#[cfg(test)]
mod streams;
#[cfg(test)]
mod watched;
