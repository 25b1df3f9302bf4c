//! Making a record of a deleted block.

ghost use Rattle.std.specs.Prelude.{◌≡◌, ◌≢◌, ℕ, ℤ, pos, ◌+◌, ◌^◌, ◌<◌, ◌≤◌, ◌==◌, false, List, Option, Some, None, OnOk, slice_index_or};
ghost use Rattle.mm_base.specs.Places.{null};
ghost use Rattle.mm_base.specs.declared.place.DiskLoc.{DiskLoc};
ghost use Rattle.mm_ranges.specs.Overlay.{bytes_at};
ghost use Rattle.mm_frames.specs.declared.extent_header.ExtentHeader.{ExtentHeader};
ghost use Rattle.mm_links.specs.Links.{Place};
ghost use Rattle.mm_extents.specs.Heap.{Heap, extent, IsHeap};
ghost use Rattle.mm_extents.specs.Changes.{loc_or, ofs_or, LowOr, KeepsHeaders, DeclaresAtMost};
ghost use Rattle.mm_records.specs.Constants.{constants_of};
ghost use Rattle.mm_records.specs.Shape.{Shape};
ghost use Rattle.mm_records.specs.Map.{name_at};
ghost use Rattle.mm_records.specs.InHand.{StandsWith};
ghost use Rattle.mm_records.specs.Searching.{IsChosen};
ghost use Rattle.mm_records.specs.Taking.{list_passed, BlockOr, PassFits, IsTaken, IsLastLink};

use crate::links::{pass_back, pass_forward};
use crate::search::Block;
use mm_base::{DiskLoc, NoMemory};
use mm_extents::{
    Spot, named_spot, natural, read_deleted, read_extent, set_live, set_next_deleted,
};
use mm_frames::{CHAIN_END, Details};
use mm_views::Draft;

// The link to a block goes past it, where it stands in the block before it.
fn pass_block(draft: &mut Draft, before: DiskLoc, next: DiskLoc) -> Result<(), NoMemory>
    requires { (o : Option Place) × PassFits draft.old.image o before }
    ensures heap { OnOk result ((o : Option Place) (heap : Heap) → before ≡ loc_or o → LowOr o → IsHeap draft.old.image heap → BlockOr heap o → IsHeap draft.new.image (list_passed o next heap)) }
    ensures kept { OnOk result (KeepsHeaders draft.old.image draft.new.image) }
    ensures weight { DeclaresAtMost 28 draft.old draft.new }
{
    match named_spot(before) {
        Some(block) => set_next_deleted(draft, block, next),
        None => Ok(()),
    }
}

// The offset of the last record of an extent, or the end of the chain.
fn last_ofs(draft: &Draft, at: Spot) -> i32
    requires { (o : Option Place) × IsLastLink draft.now.image (at.file, at.ofs) o }
    ensures { (o : Option Place) → IsLastLink draft.now.image (at.file, at.ofs) o → result ≡ ofs_or o }
{
    match named_spot(read_extent(draft, at).last_record) {
        Some(last) => last.ofs as i32,
        None => CHAIN_END,
    }
}

// A record of so many bytes in its room is counted in, and the details' link to its block goes past it.
fn count_in(counts: &mut Details, block: Block, next: DiskLoc, room: u32)
    requires list { block.list < 19 }
    requires few { (n : ℕ) × ((n < 2 ^ 62) × (counts.old.nrecords ≡ pos n)) }
    requires small { (n : ℕ) × ((n < 2 ^ 62) × (counts.old.datasize ≡ pos n)) }
    ensures head { block.before ≡ null → slice_index_or counts.new.deleted block.list null ≡ next }
    ensures heads { (i : ℕ) → i < 19 → (i == block.list) ≡ false → slice_index_or counts.new.deleted i null ≡ slice_index_or counts.old.deleted i null }
    ensures linked { block.before ≢ null → counts.new.deleted ≡ counts.old.deleted }
    ensures first { counts.new.first_extent ≡ counts.old.first_extent }
    ensures last { counts.new.last_extent ≡ counts.old.last_extent }
    ensures nrecords { (n : ℕ) → counts.old.nrecords ≡ pos n → counts.new.nrecords ≡ pos (n + 1) }
    ensures datasize { (n : ℕ) → counts.old.datasize ≡ pos n → counts.new.datasize ≡ pos (n + room) }
    ensures size { counts.new.last_extent_size ≡ counts.old.last_extent_size }
    ensures constants { constants_of counts.new ≡ constants_of counts.old }
{
    counts.nrecords += 1;
    counts.datasize += i64::from(room);
    if block.before.is_null() {
        counts.deleted[block.list] = next;
    }
}

// A deleted block becomes the last record of its extent, with its whole length.
pub(crate) fn take_block(
    draft: &mut Draft,
    node: u32,
    counts: &mut Details,
    block: Block,
) -> Result<(), NoMemory>
    requires { (free : List ℕ) × ((s : Shape) × ((r : ℕ) × (StandsWith draft.old.image free s node counts.old × IsChosen s (name_at draft.old.image node) r block.list block.before (block.at.file, block.at.ofs)))) }
    ensures ok { OnOk result ((free : List ℕ) (s : Shape) (r : ℕ) → StandsWith draft.old.image free s node counts.old → (b : IsChosen s (name_at draft.old.image node) r block.list block.before (block.at.file, block.at.ofs))
        → (t : Shape) × (StandsWith draft.new.image free t node counts.new × IsTaken s t (name_at draft.old.image node) (block.at.file, block.at.ofs) b.rest)) }
    ensures kept { OnOk result (KeepsHeaders draft.old.image draft.new.image) }
    ensures constants { OnOk result (constants_of counts.new ≡ constants_of counts.old) }
    ensures weight { DeclaresAtMost 432 draft.old draft.new }
{
    let _node = node;
    let head = read_deleted(draft, block.at);
    let file = block.at.file;
    let ext = natural(head.extent_ofs);
    let prev = last_ofs(draft, Spot { file, ofs: ext });
    let here = block.at.ofs as i32;
    pass_block(draft, block.before, head.next_deleted)?;
    set_live(draft, block.at, CHAIN_END, prev)?;
    pass_forward(draft, file, ext, prev, here)?;
    pass_back(draft, file, ext, here, CHAIN_END)?;
    count_in(
        counts,
        block,
        head.next_deleted,
        natural(head.length_with_headers) - 16,
    );
    Ok(())
}
