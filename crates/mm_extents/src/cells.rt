//! Frames of a data file, as a draft has them.

ghost use Rattle.std.specs.Prelude.{◌≡◌, ℕ, ◌+◌, ◌^◌, ◌<◌, ◌≤◌, List, Some, length, OnOk, OnErr};
ghost use Rattle.mm_base.specs.Bytes.{part};
ghost use Rattle.mm_ranges.specs.Overlay.{bytes_at};
ghost use Rattle.mm_frames.specs.RecHeader.{rec_header_of, rec_header_bytes};
ghost use Rattle.mm_frames.specs.DeletedHeader.{deleted_header_of};
ghost use Rattle.mm_frames.specs.ExtentHeader.{extent_header_of, extent_header_bytes};
ghost use Rattle.mm_frames.specs.declared.rec_header.RecHeader.{RecHeader};
ghost use Rattle.mm_frames.specs.declared.extent_header.ExtentHeader.{ExtentHeader};
ghost use Rattle.mm_extents.specs.Heap.{Heap, live, extent, IsHeap, change};
ghost use Rattle.mm_extents.specs.Changes.{written, IsWritten, next_set, prev_set, first_set, last_set, xnext_set, xprev_set, room_set, freed, DeclaresAtMost};

use crate::places::Spot;
use mm_base::{DiskLoc, NoMemory};
use mm_frames::{
    EXTENT_HEADER_LEN, ExtentHeader, REC_HEADER_LEN, RecHeader, put_first_record, put_last_record,
    put_next_deleted, put_next_ofs, put_prev_ofs, put_xnext, put_xprev, read_extent_header,
    read_rec_header,
};
use mm_views::Draft;

// Declares and writes bytes.
pub(crate) fn overwrite(draft: &mut Draft, at: Spot, bytes: &[u8]) -> Result<(), NoMemory>
    requires some { 0 < length bytes.now }
    requires short { length bytes.now ≤ 67108864 }
    requires inside { at.ofs + length bytes.now ≤ length (bytes_at draft.old.image at.file) }
    ensures ok { OnOk result (draft.new ≡ written at.file at.ofs bytes.now draft.old) }
    ensures weight { DeclaresAtMost (length bytes.now + 12) draft.old draft.new }
    ensures err { OnErr result (draft.new ≡ draft.old) }
{
    draft.declare(at.file, at.ofs, bytes.len() as u32)?;
    draft.write(at.file, at.ofs, bytes);
    Ok(())
}

/// The header of the record at a place.
pub fn read_record(draft: &Draft, at: Spot) -> RecHeader
    requires { at.ofs + REC_HEADER_LEN ≤ length (bytes_at draft.now.image at.file) }
    ensures { result ≡ rec_header_of (part at.ofs REC_HEADER_LEN (bytes_at draft.now.image at.file)) }
{
    let mut bytes = [0; REC_HEADER_LEN];
    draft.read(at.file, at.ofs, &mut bytes);
    read_rec_header(&bytes, 0)
}

/// The header of the extent at a place.
pub fn read_extent(draft: &Draft, at: Spot) -> ExtentHeader
    requires { at.ofs + EXTENT_HEADER_LEN ≤ length (bytes_at draft.now.image at.file) }
    ensures { result ≡ extent_header_of (part at.ofs EXTENT_HEADER_LEN (bytes_at draft.now.image at.file)) }
{
    let mut bytes = [0; EXTENT_HEADER_LEN];
    draft.read(at.file, at.ofs, &mut bytes);
    read_extent_header(&bytes, 0)
}

/// Writes the link of the record at a place to the next one.
pub fn set_next(draft: &mut Draft, at: Spot, next_ofs: i32) -> Result<(), NoMemory>
    requires { at.ofs + REC_HEADER_LEN ≤ length (bytes_at draft.old.image at.file) }
    ensures written { OnOk result (IsWritten at.file at.ofs REC_HEADER_LEN draft.old draft.new) }
    ensures heap { OnOk result ((heap : Heap) (h : RecHeader) (room : List ℕ) → IsHeap draft.old.image heap → heap (at.file, at.ofs) ≡ Some (live h room)
        → IsHeap draft.new.image (change (at.file, at.ofs) (next_set next_ofs) heap)) }
    ensures weight { DeclaresAtMost (REC_HEADER_LEN + 12) draft.old draft.new }
    ensures err { OnErr result (draft.new ≡ draft.old) }
{
    let mut bytes = [0; REC_HEADER_LEN];
    draft.read(at.file, at.ofs, &mut bytes);
    put_next_ofs(&mut bytes, 0, next_ofs);
    overwrite(draft, at, &bytes)
}

/// Writes the link of the record at a place to the one before it.
pub fn set_prev(draft: &mut Draft, at: Spot, prev_ofs: i32) -> Result<(), NoMemory>
    requires { at.ofs + REC_HEADER_LEN ≤ length (bytes_at draft.old.image at.file) }
    ensures written { OnOk result (IsWritten at.file at.ofs REC_HEADER_LEN draft.old draft.new) }
    ensures heap { OnOk result ((heap : Heap) (h : RecHeader) (room : List ℕ) → IsHeap draft.old.image heap → heap (at.file, at.ofs) ≡ Some (live h room)
        → IsHeap draft.new.image (change (at.file, at.ofs) (prev_set prev_ofs) heap)) }
    ensures weight { DeclaresAtMost (REC_HEADER_LEN + 12) draft.old draft.new }
    ensures err { OnErr result (draft.new ≡ draft.old) }
{
    let mut bytes = [0; REC_HEADER_LEN];
    draft.read(at.file, at.ofs, &mut bytes);
    put_prev_ofs(&mut bytes, 0, prev_ofs);
    overwrite(draft, at, &bytes)
}

/// Writes where the records of the extent at a place begin.
pub fn set_first(draft: &mut Draft, at: Spot, first_record: DiskLoc) -> Result<(), NoMemory>
    requires { at.ofs + EXTENT_HEADER_LEN ≤ length (bytes_at draft.old.image at.file) }
    ensures written { OnOk result (IsWritten at.file at.ofs EXTENT_HEADER_LEN draft.old draft.new) }
    ensures heap { OnOk result ((heap : Heap) (h : ExtentHeader) → IsHeap draft.old.image heap → heap (at.file, at.ofs) ≡ Some (extent h)
        → IsHeap draft.new.image (change (at.file, at.ofs) (first_set first_record) heap)) }
    ensures weight { DeclaresAtMost (EXTENT_HEADER_LEN + 12) draft.old draft.new }
    ensures err { OnErr result (draft.new ≡ draft.old) }
{
    let mut bytes = [0; EXTENT_HEADER_LEN];
    draft.read(at.file, at.ofs, &mut bytes);
    put_first_record(&mut bytes, 0, first_record);
    overwrite(draft, at, &bytes)
}

/// Writes where the records of the extent at a place end.
pub fn set_last(draft: &mut Draft, at: Spot, last_record: DiskLoc) -> Result<(), NoMemory>
    requires { at.ofs + EXTENT_HEADER_LEN ≤ length (bytes_at draft.old.image at.file) }
    ensures written { OnOk result (IsWritten at.file at.ofs EXTENT_HEADER_LEN draft.old draft.new) }
    ensures heap { OnOk result ((heap : Heap) (h : ExtentHeader) → IsHeap draft.old.image heap → heap (at.file, at.ofs) ≡ Some (extent h)
        → IsHeap draft.new.image (change (at.file, at.ofs) (last_set last_record) heap)) }
    ensures weight { DeclaresAtMost (EXTENT_HEADER_LEN + 12) draft.old draft.new }
    ensures err { OnErr result (draft.new ≡ draft.old) }
{
    let mut bytes = [0; EXTENT_HEADER_LEN];
    draft.read(at.file, at.ofs, &mut bytes);
    put_last_record(&mut bytes, 0, last_record);
    overwrite(draft, at, &bytes)
}

/// Makes the record at a place a deleted block.
pub fn set_deleted(draft: &mut Draft, at: Spot, next_deleted: DiskLoc) -> Result<(), NoMemory>
    requires { at.ofs + REC_HEADER_LEN ≤ length (bytes_at draft.old.image at.file) }
    ensures written { OnOk result (IsWritten at.file at.ofs REC_HEADER_LEN draft.old draft.new) }
    ensures heap { OnOk result ((heap : Heap) (h : RecHeader) (room : List ℕ) → IsHeap draft.old.image heap → heap (at.file, at.ofs) ≡ Some (live h room)
        → IsHeap draft.new.image (change (at.file, at.ofs) (freed next_deleted) heap)) }
    ensures weight { DeclaresAtMost (REC_HEADER_LEN + 12) draft.old draft.new }
    ensures err { OnErr result (draft.new ≡ draft.old) }
{
    let mut bytes = [0; REC_HEADER_LEN];
    draft.read(at.file, at.ofs, &mut bytes);
    put_next_deleted(&mut bytes, 0, next_deleted);
    overwrite(draft, at, &bytes)
}

/// Writes the link of the extent at a place to the next one.
pub fn set_xnext(draft: &mut Draft, at: Spot, xnext: DiskLoc) -> Result<(), NoMemory>
    requires { at.ofs + EXTENT_HEADER_LEN ≤ length (bytes_at draft.old.image at.file) }
    ensures written { OnOk result (IsWritten at.file at.ofs EXTENT_HEADER_LEN draft.old draft.new) }
    ensures heap { OnOk result ((heap : Heap) (h : ExtentHeader) → IsHeap draft.old.image heap → heap (at.file, at.ofs) ≡ Some (extent h)
        → IsHeap draft.new.image (change (at.file, at.ofs) (xnext_set xnext) heap)) }
    ensures weight { DeclaresAtMost (EXTENT_HEADER_LEN + 12) draft.old draft.new }
    ensures err { OnErr result (draft.new ≡ draft.old) }
{
    let mut bytes = [0; EXTENT_HEADER_LEN];
    draft.read(at.file, at.ofs, &mut bytes);
    put_xnext(&mut bytes, 0, xnext);
    overwrite(draft, at, &bytes)
}

/// Writes the link of the extent at a place to the one before it.
pub fn set_xprev(draft: &mut Draft, at: Spot, xprev: DiskLoc) -> Result<(), NoMemory>
    requires { at.ofs + EXTENT_HEADER_LEN ≤ length (bytes_at draft.old.image at.file) }
    ensures written { OnOk result (IsWritten at.file at.ofs EXTENT_HEADER_LEN draft.old draft.new) }
    ensures heap { OnOk result ((heap : Heap) (h : ExtentHeader) → IsHeap draft.old.image heap → heap (at.file, at.ofs) ≡ Some (extent h)
        → IsHeap draft.new.image (change (at.file, at.ofs) (xprev_set xprev) heap)) }
    ensures weight { DeclaresAtMost (EXTENT_HEADER_LEN + 12) draft.old draft.new }
    ensures err { OnErr result (draft.new ≡ draft.old) }
{
    let mut bytes = [0; EXTENT_HEADER_LEN];
    draft.read(at.file, at.ofs, &mut bytes);
    put_xprev(&mut bytes, 0, xprev);
    overwrite(draft, at, &bytes)
}

/// Writes bytes into the room of the record at a place, from its byte k on.
pub fn set_room(draft: &mut Draft, at: Spot, k: u32, bytes: &[u8]) -> Result<(), NoMemory>
    requires some { 0 < length bytes.now }
    requires short { length bytes.now ≤ 67108864 }
    requires place { at.ofs + 16 + k < 2 ^ 32 }
    requires inside { at.ofs + 16 + k + length bytes.now ≤ length (bytes_at draft.old.image at.file) }
    ensures ok { OnOk result (draft.new ≡ written at.file (at.ofs + 16 + k) bytes.now draft.old) }
    ensures heap { OnOk result ((heap : Heap) (h : RecHeader) (room : List ℕ) → IsHeap draft.old.image heap → heap (at.file, at.ofs) ≡ Some (live h room)
        → k + length bytes.now ≤ length room → IsHeap draft.new.image (change (at.file, at.ofs) (room_set k bytes.now) heap)) }
    ensures weight { DeclaresAtMost (length bytes.now + 12) draft.old draft.new }
    ensures err { OnErr result (draft.new ≡ draft.old) }
{
    let from = Spot {
        file: at.file,
        ofs: at.ofs + 16 + k,
    };
    overwrite(draft, from, bytes)
}
