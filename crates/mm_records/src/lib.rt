//! The records of a namespace as a map from places to payloads (MongoDB 2.6, MMAPv1).
//!
//! - `Stands` (specs/Stands) says of the files what points to what: extents tile the files and stand on the chains of their names, blocks
//!   tile the extents, each live record is once on the chain of its extent, each deleted block once on the list that its length names, and
//!   the details of each node count and name them rightly. A `Shape` is what the files hold: what stands at each place, and three
//!   functions to lists.
//! - `live_at` (specs/Map) is the map: the room of each live record of a namespace. A payload is the front of a room.
//! - `alloc` adds one pair to the map and answers its place (`IsAllocated`, specs/Allocating). The block is the first of r bytes in the
//!   first list that has one, from the list of r bytes on; only where no block of the namespace has r bytes it adds an extent. `NoSpace`
//!   comes exactly where the payload fits nowhere (`NoFit`, specs/Asking).
//! - `free` takes one pair out of the map; the block heads the list of its length. `write` and `write_inside` change one room; `write`
//!   answers false exactly where the payload is too long, and then nothing changes. `payload` gives the whole room; `first` and `next`
//!   go through the map in the order of the extents and of their chains.
//! - Each of these says that the files stand again, and that the maps of all namespaces are as they were at every other place. `alloc`
//!   lowers the room of the files by at most four times the extent that it adds, the others leave it.
//! - What a call declares is bounded by its clause `weight`: `write` and `write_inside` declare the bytes that they write alone, `free` 912,
//!   `alloc` its payload and 2512.
//!
//! After an error the draft is to be dropped. What a payload means, and which nodes are collections, is for the crates above.
#![tactic(auto)]

mod adding;
mod allocating;
mod asking;
mod extending;
mod freeing;
mod links;
mod nodes;
mod rooms;
mod search;
mod shortening;
mod store;
mod taking;
mod walking;

pub use asking::Request;
pub use mm_extents::SpaceFault;
pub use store::RecordStore;
