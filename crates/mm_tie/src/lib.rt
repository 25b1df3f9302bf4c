//! What one side gave is what the other side took, though each side is behind a lock of its own.
//!
//! - A `Giver` is seen as the list of all that was given, a `Taker` as that of all that was taken; both are ends of one ring, by which
//!   clauses say that the two belong together (`giver_ring`, `taker_ring`).
//! - `hand_over` is made with both ends in hand: both lists grow by the item. `agree`, with both in hand again, tells that the two lists
//!   are one. Nothing is ever on its way between two calls.
//! - A `Feed` is the end by which the durable side takes what a database closes, and `Origin` is what it asks of that database: each
//!   item follows the one before, may stand in a journal, and fits the files that the items before it gave.
//!
//! Both ends may be sent to and shared with other threads. Not promised: that memory for a ring is there.
#![tactic(auto)]

mod calls;
mod ends;
mod origin;

pub use calls::{agree, hand_over, pair};
pub use ends::{Giver, Taker};
pub use origin::{Feed, Origin};
