//! What becomes of a subtree that loses a pair.

ghost use Rattle.std.specs.Prelude.{◌≡◌};
ghost use Rattle.mm_btree.specs.Removal.{ups};

use crate::carried::Carried;
use crate::raised::Raised;

/// What stands where the root of a subtree stood.
#[derive(Drop)]
pub enum Outcome {
    /// A bucket with a pair.
    Whole,
    /// A bucket without pairs, which is to be joined with a neighbour.
    Thin,
    /// Two buckets, with a pair between them.
    Parted(Raised),
}

/// A pair was taken out of a subtree.
#[derive(Drop)]
pub struct Removed {
    /// The pair that was taken out, where it isn't the one that was asked for but the one before it, which is to stand in its stead.
    pub instead: Option<Carried>,
    pub outcome: Outcome,
}

/// The last pair of a subtree was taken out.
#[derive(Drop)]
pub struct Last {
    pub pair: Carried,
    pub outcome: Outcome,
}

impl Outcome {
    /// A bucket that has a pair was written, whole or as two.
    pub fn of(up: Option<Raised>) -> Outcome
        ensures ups { ups result ≡ up }
        ensures some { result ≡ Outcome.Thin → ⊥ }
    {
        match up {
            None => Outcome::Whole,
            Some(raised) => Outcome::Parted(raised),
        }
    }
}
