//! A disk, a source and a sink in memory, for tests: honest ones, which fail exactly where they are told to.
//!
//! `MemDisk` tells all that it is asked: it keeps each changing call that has begun as data, so that what it reads and
//! what a crash may leave of it follow. The changing calls with told numbers answer a fault, each once, and from the one
//! on at which the disk is to stop every call does; no other call does. `MemDisk::crash` makes a disk of files that a
//! crash may leave, which a number picks. `MemSource` and `MemSink` do the same for reads and writes, and can be made
//! to give and take little at a time. A new one has counted no fault and has had no call.
//!
//! Nothing here is promised of memory: a call may find none. `MemDisk` says so and keeps all as it was; a sink has no
//! such answer, and counts a fault.
#![tactic(auto)]

mod call;
mod crash;
mod disk;
mod files;
mod plan;
mod sink;
mod source;
mod traced;

pub use call::{Begun, Change};
pub use disk::MemDisk;
pub use sink::MemSink;
pub use source::MemSource;
