//! Extents that no chain has.

ghost use Rattle.std.specs.Prelude.{◌≡◌, List};
ghost use Rattle.mm_links.specs.Links.{Place};
ghost use Rattle.mm_walk.specs.Walk.{Knows};
ghost use Rattle.mm_walk.specs.Questions.{first_failing};
ghost use Rattle.mm_check.specs.ExtentChain.{lost_questions};

use crate::places::is_known;
use std::collections::BTreeSet;

/// The first of some extents, by their places, that isn't among those that were seen on chains.
pub fn first_lost(all: &[(u32, u32)], chained: &BTreeSet<u64>) -> Option<(u32, u32)>
    ensures { (seen : List Place) → Knows chained.now seen → result ≡ first_failing (lost_questions all.now seen) }
{
    for at in all {
        if !is_known(chained, *at) {
            return Some(*at);
        }
    }
    None
}
