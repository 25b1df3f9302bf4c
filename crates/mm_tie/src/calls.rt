//! The calls, which are made with both ends in hand.

ghost use Rattle.std.specs.Prelude.{◌≡◌, ◌<◌, ◌≤◌, ◌++◌, ◌∷◌, [], length, IfOk};
ghost use Rattle.mm_tie.specs.Ends.{given, taken, giver_room, taker_room, giver_ring, taker_ring};

use crate::ends::{Giver, Taker};
use mm_base::NoMemory;
use rtrb::RingBuffer;
use std::alloc::Global;

/// The two ends of a new ring, which carries at most `capacity` items in all.
pub fn pair<T: Drop>(alloc: Global, capacity: usize) -> Result<(Giver<T>, Taker<T>), NoMemory>
    requires { 1 ≤ capacity }
    ensures ring { IfOk result (λ r. taker_ring r.1 ≡ giver_ring r.0) }
    ensures empty { IfOk result (λ r. (given r.0 ≡ []) × (taken r.1 ≡ [])) }
    ensures room { IfOk result (λ r. (giver_room r.0 ≡ capacity) × (taker_room r.1 ≡ capacity)) }
{
    let (giver, taker) = RingBuffer::new(alloc, capacity)?;
    Ok((Giver { end: giver }, Taker { end: taker }))
}

/// Gives an item, takes it at once and answers it. It takes no memory.
pub fn hand_over<T: Drop>(giver: &mut Giver<T>, taker: &mut Taker<T>, item: T) -> T
    requires ring { taker_ring taker.old ≡ giver_ring giver.old }
    requires room { length (given giver.old) < giver_room giver.old }
    ensures item { result ≡ item }
    ensures given { given giver.new ≡ given giver.old ++ item ∷ [] }
    ensures taken { taken taker.new ≡ taken taker.old ++ item ∷ [] }
    ensures giver { (giver_ring giver.new ≡ giver_ring giver.old) × (giver_room giver.new ≡ giver_room giver.old) }
    ensures taker { (taker_ring taker.new ≡ taker_ring taker.old) × (taker_room taker.new ≡ taker_room taker.old) }
{
    taker.end.slots_beside(&mut giver.end);
    giver.end.slots_beside(&mut taker.end);
    giver.end.push_reserved(item);
    taker.end.slots_beside(&mut giver.end);
    let item = taker.end.pop_known();
    giver.end.slots_beside(&mut taker.end);
    item
}

/// With both ends in hand, what was given is what was taken. Nothing changes, and it takes no memory.
pub fn agree<T>(giver: &mut Giver<T>, taker: &mut Taker<T>)
    requires { taker_ring taker.old ≡ giver_ring giver.old }
    ensures agree { given giver.old ≡ taken taker.old }
    ensures given { given giver.new ≡ given giver.old }
    ensures taken { taken taker.new ≡ taken taker.old }
    ensures giver { (giver_ring giver.new ≡ giver_ring giver.old) × (giver_room giver.new ≡ giver_room giver.old) }
    ensures taker { (taker_ring taker.new ≡ taker_ring taker.old) × (taker_room taker.new ≡ taker_room taker.old) }
{
    taker.end.slots_beside(&mut giver.end);
    giver.end.slots_beside(&mut taker.end);
}
