//! Freeing a record.

ghost use Rattle.std.specs.Prelude.{◌≡◌, ℕ, ℤ, pos, ◌+◌, ◌^◌, ◌<◌, ◌≤◌, ◌≤ℤ◌, ◌==◌, true, false, List, Some, length, OnOk, slice_set, slice_index_or, IsTrue};
ghost use Rattle.mm_base.specs.Places.{null};
ghost use Rattle.mm_extents.specs.Changes.{loc, DeclaresAtMost};
ghost use Rattle.mm_extents.specs.Room.{room};
ghost use Rattle.mm_records.specs.Constants.{constants_of, SameConstants};
ghost use Rattle.mm_frames.specs.Texts.{text_in};
ghost use Rattle.mm_nstable.specs.Nodes.{SameNames};
ghost use Rattle.mm_records.specs.Shape.{Shape};
ghost use Rattle.mm_records.specs.Stands.{Stands, IsOwn, ns_in};
ghost use Rattle.mm_records.specs.Freeing.{freed_shape};
ghost use Rattle.mm_records.specs.Map.{IsTakenOut};

use crate::links::{list_of, pass_back, pass_forward};
use crate::nodes::put_node;
use mm_base::NoMemory;
use mm_extents::{Spot, natural, place, read_record, set_deleted};
use mm_frames::Details;
use mm_nstable::details;
use mm_views::Draft;

// A record of so many bytes in its room is counted out, and heads a list.
fn count_out(counts: &mut Details, list: usize, at: Spot, room: u32)
    requires list { list < 19 }
    requires file { at.file < 8 }
    requires ofs { at.ofs < 2 ^ 31 }
    requires some { (n : ℕ) × (counts.old.nrecords ≡ pos (n + 1)) }
    requires large { (n : ℕ) × (counts.old.datasize ≡ pos (n + room)) }
    ensures first { counts.new.first_extent ≡ counts.old.first_extent }
    ensures last { counts.new.last_extent ≡ counts.old.last_extent }
    ensures head { slice_index_or counts.new.deleted list null ≡ loc (at.file, at.ofs) }
    ensures heads { (i : ℕ) → i < 19 → (i == list) ≡ false → slice_index_or counts.new.deleted i null ≡ slice_index_or counts.old.deleted i null }
    ensures nrecords { (n : ℕ) → counts.old.nrecords ≡ pos (n + 1) → counts.new.nrecords ≡ pos n }
    ensures size { counts.new.last_extent_size ≡ counts.old.last_extent_size }
    ensures constants { constants_of counts.new ≡ constants_of counts.old }
    ensures datasize { (n : ℕ) → counts.old.datasize ≡ pos (n + room) → counts.new.datasize ≡ pos n }
{
    counts.deleted[list] = place(at);
    counts.nrecords -= 1;
    counts.datasize -= i64::from(room);
}

/// Frees a live record of a node's namespace.
pub fn free_at(draft: &mut Draft, node: u32, at: Spot) -> Result<(), NoMemory>
    requires { (free : List ℕ) × ((s : Shape) × IsOwn draft.old.image free s node (at.file, at.ofs)) }
    ensures stands { OnOk result ((free : List ℕ) (s : Shape) (own : IsOwn draft.old.image free s node (at.file, at.ofs))
        → Stands draft.new.image free (freed_shape (text_in own.hh.namespace) own.a (at.file, at.ofs) own.h (16 + length own.room) s)) }

    // One place is taken out of the map.
    ensures map { OnOk result ((free : List ℕ) (s : Shape) (own : IsOwn draft.old.image free s node (at.file, at.ofs))
        → IsTakenOut s (freed_shape (text_in own.hh.namespace) own.a (at.file, at.ofs) own.h (16 + length own.room) s) (at.file, at.ofs)) }
    ensures constants { OnOk result (SameConstants (ns_in draft.old.image) (ns_in draft.new.image)) }
    ensures names { OnOk result (SameNames (ns_in draft.old.image) (ns_in draft.new.image)) }
    ensures room { OnOk result (room draft.new.image ≡ room draft.old.image) }
    ensures weight { DeclaresAtMost 912 draft.old draft.new }
{
    let head = read_record(draft, at);
    let ext = natural(head.extent_ofs);
    let len = natural(head.length_with_headers);
    pass_forward(draft, at.file, ext, head.prev_ofs, head.next_ofs)?;
    pass_back(draft, at.file, ext, head.prev_ofs, head.next_ofs)?;
    let mut counts = details(draft, node);
    let list = list_of(len);
    set_deleted(draft, at, counts.deleted[list])?;
    count_out(&mut counts, list, at, len - 16);
    put_node(draft, node, counts)
}
