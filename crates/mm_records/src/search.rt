//! The search in the lists of deleted blocks.

ghost use Rattle.std.specs.Prelude.{◌≡◌, ℕ, ◌≤◌, ◌<◌, List, IfSome, IfNone};
ghost use Rattle.mm_base.specs.Places.{null};
ghost use Rattle.mm_links.specs.Links.{Place};
ghost use Rattle.mm_records.specs.Shape.{Shape};
ghost use Rattle.mm_records.specs.InHand.{StandsWith};
ghost use Rattle.mm_records.specs.Map.{name_at};
ghost use Rattle.mm_records.specs.Searching.{IsList, AllShort, IsFirstFit, NoBlock, IsChosen};

use crate::links::list_of;
use mm_base::DiskLoc;
use mm_extents::{Spot, named_spot, natural, read_deleted};
use mm_frames::Details;
use mm_views::Draft;

// More than there are places in the data files.
const MAX_STEPS: u32 = 536_870_913;

// A deleted block on its list, behind another or, where that is null, at the head.
#[derive(Clone, Copy, Debug, PartialEq, Eq)]
pub(crate) struct Block {
    pub list: usize,
    pub before: DiskLoc,
    pub at: Spot,
}

// No place: what stands before the first block of a list.
fn no_place() -> DiskLoc
    ensures { result ≡ null }
{
    DiskLoc::NULL
}

// The first block of a list that has so many bytes.
fn first_fit(draft: &Draft, list: usize, head: DiskLoc, room: u32) -> Option<Block>
    requires { (blocks : List Place) × IsList draft.now.image blocks head }
    ensures same { IfSome result (λ block. block.list ≡ list) }
    ensures some { IfSome result (λ block. (blocks : List Place) → IsList draft.now.image blocks head → IsFirstFit draft.now.image blocks room block.before (block.at.file, block.at.ofs)) }
    ensures none { IfNone result ((blocks : List Place) → IsList draft.now.image blocks head → AllShort draft.now.image room blocks) }
{
    let mut before = no_place();
    let mut next = head;
    for step in 0..MAX_STEPS {
        let Some(at) = named_spot(next) else {
            return None;
        };
        let header = read_deleted(draft, at);
        if natural(header.length_with_headers) >= room {
            return Some(Block { list, before, at });
        }
        before = next;
        next = header.next_deleted;
    }
    unreachable!()
}

// The block for a record of so many bytes.
pub(crate) fn find_block(draft: &Draft, node: u32, counts: &Details, room: u32) -> Option<Block>
    requires { (free : List ℕ) × ((s : Shape) × StandsWith draft.now.image free s node counts.now) }
    ensures some { IfSome result (λ block. (free : List ℕ) (s : Shape) → StandsWith draft.now.image free s node counts.now
        → IsChosen s (name_at draft.now.image node) room block.list block.before (block.at.file, block.at.ofs)) }
    ensures none { IfNone result ((free : List ℕ) (s : Shape) → StandsWith draft.now.image free s node counts.now → NoBlock s (name_at draft.now.image node) room) }
{
    let _node = node;
    for list in list_of(room)..counts.deleted.len() {
        if let Some(block) = first_fit(draft, list, counts.deleted[list], room) {
            return Some(block);
        }
    }
    None
}
