//! One database, held: its views, its log, what each session was told of it, and what was given for each closed group.
//!
//! - It is proved for any `Engine`: what commands do to a database, and which image stands for it, are the engine's relations.
//! - `Held::start` begins with loaded views. Item 0 has their files whole; where there is none, the engine's draft of a new database is adopted.
//! - `Held::step` carries one command out: one entry in the log, one mark for its session, one note for the probe, or none of them, where the
//!   group is full or memory is wanting; then all is as it was. A refused command changes no view.
//! - `close`, which is `Origin`'s, gives the item of the opened group; `apply` lays closed parts over the shared image; both take no memory.
//! - At all times the private image stands for the fold of the log, each reply is that to its command or a limit's with its cause, the items up
//!   to a closed group give an image that stands for the fold of that group and those before it, the two images differ only where something is
//!   opened or waits to be applied, each entry is of a session, whose lines rise, and the probe was told each entry once. This is one fact,
//!   `IsHeld` in specs/, which `log` tells; `agree_pass` tells that a session was given just the marks of its entries.
//!
//! Not promised: when a group is closed or applied, and that anything reaches a disk.
#![tactic(auto)]

mod attempt;
mod begun;
mod engine;
mod entered;
mod fault;
mod held;
mod images;
mod pass;
mod seats;

pub use attempt::{MAX_GROUP_WEIGHT, MAX_STEP_WEIGHT};
pub use engine::Engine;
pub use fault::Refused;
pub use held::{Done, Ended, Held};
pub use pass::{Mark, Pass};
