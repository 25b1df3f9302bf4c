//! The two ends of a ring.

ghost use Rattle.std.specs.Prelude.{◌≡◌, ◌<◌};
ghost use Rattle.rtrb.specs.Ring.{known_free, producer_capacity};

use rtrb::{Consumer, Producer};

/// The end that gives. Contracts see it as what was given (`given`), its room (`giver_room`) and its ring (`giver_ring`).
#[derive(Drop)]
pub struct Giver<T> {
    pub end: Producer<T>,
    // As far as it knows every slot is free: all that was given was taken.
    pub ghost all_taken: { known_free end ≡ producer_capacity end },
    pub ghost some_room: { 0 < producer_capacity end },
}

/// The end that takes. Contracts see it as what was taken (`taken`), its room (`taker_room`) and its ring (`taker_ring`).
#[derive(Drop)]
pub struct Taker<T> {
    pub end: Consumer<T>,
}

// An end shows nothing through a shared reference; proofs/Shared says so of what such a reference holds.
unsafe impl<T: Send + Sync> Sync for Giver<T> {}

unsafe impl<T: Send + Sync> Sync for Taker<T> {}
