//! The chains of extents.

ghost use Rattle.std.specs.Prelude.{◌≡◌, ℕ, true, List};
ghost use Rattle.std.specs.Option.{option_map};
ghost use Rattle.mm_links.specs.Links.{Place, has, next_in};
ghost use Rattle.mm_extents.specs.Heap.{Heap, IsHeap};
ghost use Rattle.mm_extents.specs.Changes.{loc};
ghost use Rattle.mm_extents.specs.Files.{FilesStand};
ghost use Rattle.mm_extents.specs.Chains.{ExtentsStand, OnChain};

use crate::cells::read_extent;
use crate::places::spot_of;
use mm_base::DiskLoc;
use mm_views::Draft;

/// The extent behind another on its chain.
pub fn next_extent(draft: &Draft, at: DiskLoc) -> Option<DiskLoc>
    requires { (heap : Heap) × ((extents : List ℕ → List Place) × ((name : List ℕ) × ((p : Place) × OnChain draft.now.image heap extents name p at))) }
    ensures { (heap : Heap) (extents : List ℕ → List Place) (name : List ℕ) (p : Place) → OnChain draft.now.image heap extents name p at
        → result ≡ option_map loc (next_in (extents name) p) }
{
    let next = read_extent(draft, spot_of(at)).xnext;
    if next.is_null() { None } else { Some(next) }
}
