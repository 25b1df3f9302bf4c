//! What is first wrong where a list of questions is asked, or a list of chains is followed.
//!
//! - A question has a place and holds or not; of a list, `first_failing` (`specs/Questions.antt`) is the place of the first that fails.
//! - A chain is read as a `Reading` (`specs/Walk.antt`): where its head leads, what each place behind another leads to, or nothing where it
//!   is wrong there, and where it may end. `follow` answers all its places exactly where it is whole, and else the one place where it
//!   breaks: a place that is wrong or was seen before, the frame whose link leads outside, or the frame that names its ends.
//! - `follow_all` does the same for chains in their order, with what was seen growing.
//! - Blocks by their places tile an extent exactly where `first_gap` (`specs/Tiles.antt`) finds nothing.
//!
//! A walk ends on any links: the places that are right lie in data files, and none is there twice. `proofs/` has the laws: a whole chain
//! doesn't break, a chain breaks at one place, its places are one list, and they are linked as `mm_links` says. Which bytes are read, and
//! what is right at a place, is for the crates above. Only want of memory stops a walk early.
#![tactic(auto)]

mod tiles;
mod walk;

pub use tiles::{first_gap, gap_in};
pub use walk::{Broken, Chain, Link, follow, follow_all, key};
