//! Leaving a record its front bytes.

ghost use Rattle.std.specs.Prelude.{◌≡◌, ℕ, ℤ, pos, ◌+◌, ◌^◌, ◌<◌, ◌≤◌, ◌==◌, false, List, Some, length, OnOk, slice_index_or};
ghost use Rattle.mm_base.specs.Places.{null};
ghost use Rattle.mm_extents.specs.Changes.{loc, KeepsHeaders, DeclaresAtMost};
ghost use Rattle.mm_records.specs.Constants.{constants_of};
ghost use Rattle.mm_records.specs.Shape.{Shape};
ghost use Rattle.mm_records.specs.Map.{live_at, name_at};
ghost use Rattle.mm_records.specs.InHand.{StandsWith};
ghost use Rattle.mm_records.specs.Shortening.{CanCut, IsShortened};

use crate::links::list_of;
use mm_base::NoMemory;
use mm_extents::{Spot, natural, place, read_record, split_record};
use mm_frames::{DeletedHeader, Details};
use mm_views::Draft;

// A block of so many bytes, which were a record's, heads a list.
fn count_rest(counts: &mut Details, list: usize, at: Spot, len: u32)
    requires list { list < 19 }
    requires file { at.file < 8 }
    requires ofs { at.ofs < 2 ^ 31 }
    requires large { (n : ℕ) × (counts.old.datasize ≡ pos (n + len)) }
    ensures first { counts.new.first_extent ≡ counts.old.first_extent }
    ensures last { counts.new.last_extent ≡ counts.old.last_extent }
    ensures head { slice_index_or counts.new.deleted list null ≡ loc (at.file, at.ofs) }
    ensures heads { (i : ℕ) → i < 19 → (i == list) ≡ false → slice_index_or counts.new.deleted i null ≡ slice_index_or counts.old.deleted i null }
    ensures nrecords { counts.new.nrecords ≡ counts.old.nrecords }
    ensures datasize { (n : ℕ) → counts.old.datasize ≡ pos (n + len) → counts.new.datasize ≡ pos n }
    ensures size { counts.new.last_extent_size ≡ counts.old.last_extent_size }
    ensures constants { constants_of counts.new ≡ constants_of counts.old }
{
    counts.deleted[list] = place(at);
    counts.datasize -= i64::from(len);
}

// A live record keeps its front `len` bytes, and the others become a deleted block.
pub(crate) fn shorten(
    draft: &mut Draft,
    node: u32,
    counts: &mut Details,
    at: Spot,
    len: u32,
) -> Result<(), NoMemory>
    requires { (free : List ℕ) × ((s : Shape) × ((room : List ℕ) × (StandsWith draft.old.image free s node counts.old × ((live_at s (name_at draft.old.image node) (at.file, at.ofs) ≡ Some room) × CanCut len (16 + length room))))) }
    ensures ok { OnOk result ((free : List ℕ) (s : Shape) (room : List ℕ) → StandsWith draft.old.image free s node counts.old → live_at s (name_at draft.old.image node) (at.file, at.ofs) ≡ Some room → CanCut len (16 + length room)
        → (t : Shape) × (StandsWith draft.new.image free t node counts.new × IsShortened s t (name_at draft.old.image node) (at.file, at.ofs) len room)) }
    ensures kept { OnOk result (KeepsHeaders draft.old.image draft.new.image) }
    ensures constants { OnOk result (constants_of counts.new ≡ constants_of counts.old) }
    ensures weight { DeclaresAtMost 56 draft.old draft.new }
{
    let _node = node;
    let head = read_record(draft, at);
    let rest = natural(head.length_with_headers) - len;
    let list = list_of(rest);
    let block = DeletedHeader {
        length_with_headers: rest as i32,
        extent_ofs: head.extent_ofs,
        next_deleted: counts.deleted[list],
    };
    split_record(draft, at, len, &block)?;
    let behind = Spot {
        file: at.file,
        ofs: at.ofs + len,
    };
    count_rest(counts, list, behind, rest);
    Ok(())
}
