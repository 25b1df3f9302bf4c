//! What lies outside of the store: a disk with named files, a source of bytes and a sink for them.
//!
//! The three traits say what an outside gives and takes where it tells: a disk tells each changing call that it
//! was asked for, and from these calls follow, by definition, what it reads and what a crash leaves at each moment
//! (`specs/Told.antt`). A source tells the bytes to come, a sink the bytes that it took. One that tells nothing,
//! as a real folder, keeps no more than its lengths and its counts. Each call answers a fault only where the count
//! of faults rose in it.
//!
//! For proofs above, `specs/Place.antt` has all that is known of one file, `specs/Ask.antt` runs of calls that may
//! stop anywhere, `specs/Leaves.antt` what a crash leaves at each moment of a run; `proofs/` has their laws.
//!
//! It doesn't promise that a call ends in time, that an outside is honest, or that want of memory doesn't come.
#![tactic(auto)]

mod disk;
mod stream;

pub use disk::{Device, Disk};
pub use stream::{Sink, SinkFault, Source, SourceFault};
