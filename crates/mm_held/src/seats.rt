//! The ends by which a database tells its sessions.

ghost use Rattle.std.specs.Prelude.{◌≤◌, ◌<◌, ℕ, length, slice_index, IfOk};
ghost use Rattle.mm_held.specs.Seats.{AreSeats};

use crate::pass::{Mark, Pass};
use mm_base::NoMemory;
use mm_tie::{Giver, pair};
use std::alloc::Global;

/// A new ring for each session, with this room.
pub fn seats(alloc: Global, rooms: &[u32]) -> Result<(Vec<Giver<Mark>>, Vec<Pass>), NoMemory>
    requires { (i : ℕ) → i < length rooms.now → 1 ≤ slice_index rooms.now i }
    ensures { IfOk result (λ r. AreSeats 0 rooms.now r.0.items r.1.items) }
{
    let mut givers = Vec::new(alloc);
    let mut passes = Vec::new(alloc);
    for place in 0..rooms.len() {
        let (giver, taker) = pair(alloc, rooms[place] as usize)?;
        givers.push(giver)?;
        passes.push(Pass { place, taker })?;
    }
    Ok((givers, passes))
}
