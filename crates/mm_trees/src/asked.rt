//! A number that only clauses read: how many places were asked for.

ghost use Rattle.std.specs.Prelude.{◌≡◌, ◌+◌};
ghost use Rattle.mm_trees.specs.Asked.{places_asked};

use std::snapshot::Snapshot;

/// How many places were asked for. It keeps nothing of them, and has no end.
#[derive(Drop)]
pub enum Asked {
    None,
    More(Snapshot<Asked>),
}

impl Asked {
    /// No place yet.
    pub fn none() -> Asked
        ensures { places_asked result ≡ 0 }
    {
        Asked::None
    }

    /// One place more.
    pub fn and_one(&self) -> Asked
        ensures { places_asked result ≡ places_asked self.now + 1 }
    {
        Asked::More(Snapshot::of(self))
    }
}
