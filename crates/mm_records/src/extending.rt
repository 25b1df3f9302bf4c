//! Adding an extent to a namespace.

ghost use Rattle.std.specs.Prelude.{◌≡◌, ◌≢◌, ℕ, ℤ, pos, ◌+◌, ◌-◌, ◌*◌, ◌%◌, ◌^◌, ◌<◌, ◌≤◌, ◌==◌, false, List, Option, Some, IfOk, OnOk, IsErrOf, IsTrue, slice_index_or};
ghost use Rattle.std.specs.FinMap.{get};
ghost use Rattle.mm_base.specs.Places.{null};
ghost use Rattle.mm_links.specs.Links.{Place};
ghost use Rattle.mm_extents.specs.Heap.{Heap, IsHeap};
ghost use Rattle.mm_extents.specs.Changes.{loc, loc_or, LowOr, behind_of, KeepsHeaders, DeclaresAtMost};
ghost use Rattle.mm_extents.specs.Room.{LowersRoom};
ghost use Rattle.mm_extents.specs.FreeExtents.{next_passed, ExtentOr, NoExtent, IsLeftFull};
ghost use Rattle.mm_nstable.specs.Nodes.{IsTable, SameNames, is_used};
ghost use Rattle.mm_nstable.specs.Changes.{ns_of};
ghost use Rattle.mm_records.specs.Constants.{constants_of, SameConstants};
ghost use Rattle.mm_records.specs.Shape.{Shape};
ghost use Rattle.mm_records.specs.Stands.{ns_in};
ghost use Rattle.mm_records.specs.Map.{name_at};
ghost use Rattle.mm_records.specs.InHand.{StandsWith};
ghost use Rattle.mm_records.specs.Passing.{HasExtent};
ghost use Rattle.mm_records.specs.Taking.{IsBlockAt};
ghost use Rattle.mm_records.specs.Extending.{CanLink, linked_in, IsExtended};

use crate::links::list_of;
use crate::nodes::name_of;
use mm_base::{DiskLoc, NoMemory};
use mm_extents::{
    SpaceFault, Spot, named_spot, natural, new_extent, place, read_extent, set_next_deleted,
    set_xnext, set_xprev, spot_of,
};
use mm_frames::Details;
use mm_nstable::{free_ends, put_free_ends};
use mm_views::Draft;

// The link of the last extent, where there is one, to another behind it.
fn link_last(draft: &mut Draft, last: DiskLoc, next: DiskLoc) -> Result<(), NoMemory>
    requires { (o : Option Place) × ((e : Place) × ((last ≡ loc_or o) × CanLink draft.old.image o e)) }
    ensures heap { OnOk result ((o : Option Place) (heap : Heap) → last ≡ loc_or o → LowOr o → IsHeap draft.old.image heap → ExtentOr heap o → IsHeap draft.new.image (next_passed o next heap)) }
    ensures kept { OnOk result (KeepsHeaders draft.old.image draft.new.image) }
    ensures weight { DeclaresAtMost 188 draft.old draft.new }
{
    match named_spot(last) {
        Some(extent) => set_xnext(draft, extent, next),
        None => Ok(()),
    }
}

// Links an extent behind the last one, and its block before the head of a list.
fn link_extent(draft: &mut Draft, last: DiskLoc, at: Spot, head: DiskLoc) -> Result<(), NoMemory>
    requires can { (o : Option Place) × ((last ≡ loc_or o) × CanLink draft.old.image o (at.file, at.ofs)) }
    requires ofs { at.ofs < 67108864 }
    ensures heap { OnOk result ((o : Option Place) (heap : Heap) → last ≡ loc_or o → LowOr o → IsHeap draft.old.image heap → ExtentOr heap o → HasExtent heap (at.file, at.ofs) → IsBlockAt heap (behind_of (at.file, at.ofs) 176)
        → IsHeap draft.new.image (linked_in o (at.file, at.ofs) head heap)) }
    ensures kept { OnOk result (KeepsHeaders draft.old.image draft.new.image) }
    ensures weight { DeclaresAtMost 404 draft.old draft.new }
{
    link_last(draft, last, place(at))?;
    set_xprev(draft, at, last)?;
    let block = Spot {
        file: at.file,
        ofs: at.ofs + 176,
    };
    set_next_deleted(draft, block, head)
}

// An extent of so many bytes is counted in as the last one, and its block heads a list.
fn count_extent(counts: &mut Details, at: Spot, len: u32, list: usize)
    requires list { list < 19 }
    requires file { at.file < 8 }
    requires ofs { at.ofs < 67108864 }
    requires len { len < 2 ^ 31 }
    ensures alone { counts.old.first_extent ≡ null → counts.new.first_extent ≡ loc (at.file, at.ofs) }
    ensures first { counts.old.first_extent ≢ null → counts.new.first_extent ≡ counts.old.first_extent }
    ensures last { counts.new.last_extent ≡ loc (at.file, at.ofs) }
    ensures size { counts.new.last_extent_size ≡ pos len }
    ensures head { slice_index_or counts.new.deleted list null ≡ loc (behind_of (at.file, at.ofs) 176) }
    ensures heads { (i : ℕ) → i < 19 → (i == list) ≡ false → slice_index_or counts.new.deleted i null ≡ slice_index_or counts.old.deleted i null }
    ensures nrecords { counts.new.nrecords ≡ counts.old.nrecords }
    ensures datasize { counts.new.datasize ≡ counts.old.datasize }
    ensures constants { constants_of counts.new ≡ constants_of counts.old }
{
    counts.deleted[list] = place(Spot {
        file: at.file,
        ofs: at.ofs + 176,
    });
    counts.last_extent = place(at);
    counts.last_extent_size = len as i32;
    if counts.first_extent.is_null() {
        counts.first_extent = place(at);
    }
}

// A new extent of at least so many bytes is the last of the namespace, and its whole room a deleted block.
pub(crate) fn add_extent(
    draft: &mut Draft,
    node: u32,
    counts: &mut Details,
    len: u32,
) -> Result<(), SpaceFault>
    requires stands { (free : List ℕ) × ((s : Shape) × StandsWith draft.old.image free s node counts.old) }
    requires pages { len % 4096 ≡ 0 }
    requires some { 0 < len }
    ensures ok { OnOk result ((free : List ℕ) (s : Shape) → StandsWith draft.old.image free s node counts.old
        → (t : Shape) × (StandsWith draft.new.image free t node counts.new × ((e : Place) × ((n : ℕ) × IsExtended draft.old.image s t free (name_at draft.old.image node) len e n)))) }
    ensures full { IsErrOf result SpaceFault.NoSpace → (free : List ℕ) (s : Shape) → StandsWith draft.old.image free s node counts.old → NoExtent draft.old.image s.heap (s.extents free) len }
    ensures left { IsErrOf result SpaceFault.NoSpace → IsLeftFull draft.old.image draft.new.image len }
    ensures space { OnOk result ((free : List ℕ) (s : Shape) → StandsWith draft.old.image free s node counts.old → NoExtent draft.old.image s.heap (s.extents free) len → ⊥) }
    ensures constants { OnOk result (constants_of counts.new ≡ constants_of counts.old) }
    ensures same { OnOk result (SameConstants (ns_in draft.old.image) (ns_in draft.new.image)) }
    ensures names { OnOk result (SameNames (ns_in draft.old.image) (ns_in draft.new.image)) }
    ensures room { OnOk result (LowersRoom (4 * len) draft.old.image draft.new.image) }
    ensures weight { DeclaresAtMost 1504 draft.old draft.new }
{
    let name = name_of(draft, node);
    let mut free = free_ends(draft);
    let at = spot_of(new_extent(draft, &name, len, &mut free)?);
    put_free_ends(draft, &free)?;
    let long = natural(read_extent(draft, at).len);
    let list = list_of(long - 176);
    link_extent(draft, counts.last_extent, at, counts.deleted[list])?;
    count_extent(counts, at, long, list);
    Ok(())
}
