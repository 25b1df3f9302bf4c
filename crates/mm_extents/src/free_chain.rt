//! The chain of free extents.

ghost use Rattle.std.specs.Prelude.{◌≡◌, ℕ, List, IfSome, IfNone};
ghost use Rattle.mm_links.specs.Links.{Place};
ghost use Rattle.mm_frames.specs.declared.free_ends.FreeEnds.{FreeEnds};
ghost use Rattle.mm_extents.specs.Heap.{Heap};
ghost use Rattle.mm_extents.specs.FreeExtents.{IsChain, AllShort, IsFirstFit, HasFree, AllShorter, IsFirstFree};

use crate::cells::read_extent;
use crate::places::{Spot, named_spot, natural};
use mm_base::DiskLoc;
use mm_frames::FreeEnds;
use mm_views::Draft;

// More than there are places in the data files.
const MAX_STEPS: u32 = 536_870_913;

// The first extent of a chain that has so many bytes.
fn first_long(draft: &Draft, head: DiskLoc, len: u32) -> Option<Spot>
    requires { (chain : List Place) × IsChain draft.now.image chain head }
    ensures some { IfSome result (λ at. (chain : List Place) → IsChain draft.now.image chain head → IsFirstFit draft.now.image chain len (at.file, at.ofs)) }
    ensures none { IfNone result ((chain : List Place) → IsChain draft.now.image chain head → AllShort draft.now.image len chain) }
{
    let mut next = head;
    for step in 0..MAX_STEPS {
        let Some(at) = named_spot(next) else {
            return None;
        };
        let header = read_extent(draft, at);
        if natural(header.len) >= len {
            return Some(at);
        }
        next = header.xnext;
    }
    unreachable!()
}

// The first free extent of so many bytes.
pub(crate) fn first_free(draft: &Draft, free: &FreeEnds, len: u32) -> Option<Spot>
    requires { (db : List ℕ) × ((heap : Heap) × ((chain : List Place) × HasFree draft.now.image db heap chain free.now)) }
    ensures some { IfSome result (λ at. (db : List ℕ) (heap : Heap) (chain : List Place) → HasFree draft.now.image db heap chain free.now → IsFirstFree heap chain len (at.file, at.ofs)) }
    ensures none { IfNone result ((db : List ℕ) (heap : Heap) (chain : List Place) → HasFree draft.now.image db heap chain free.now → AllShorter heap len chain) }
{
    first_long(draft, free.first, len)
}
