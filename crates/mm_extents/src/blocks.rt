//! Deleted blocks, and records that are made of them.

ghost use Rattle.std.specs.Prelude.{◌≡◌, ℕ, ◌+◌, ◌^◌, ◌<◌, ◌≤◌, List, Some, length, OnOk, OnErr};
ghost use Rattle.mm_base.specs.Bytes.{part};
ghost use Rattle.mm_ranges.specs.Overlay.{bytes_at};
ghost use Rattle.mm_frames.specs.DeletedHeader.{deleted_header_of};
ghost use Rattle.mm_frames.specs.declared.rec_header.RecHeader.{RecHeader};
ghost use Rattle.mm_frames.specs.declared.deleted_header.DeletedHeader.{DeletedHeader};
ghost use Rattle.mm_extents.specs.Heap.{Heap, live, deleted, IsHeap, change};
ghost use Rattle.mm_extents.specs.Changes.{IsWritten, KeepsHeaders, DeclaresAtMost, deleted_next_set, taken, front_of, rest_of, behind_of, put_two};

use crate::cells::{overwrite, read_record};
use crate::places::Spot;
use mm_base::{DiskLoc, NoMemory};
use mm_frames::{
    DELETED_HEADER_LEN, DeletedHeader, REC_HEADER_LEN, RecHeader, deleted_header_frame,
    put_next_deleted, put_next_ofs, put_prev_ofs, read_deleted_header, rec_header_frame,
};
use mm_views::Draft;

/// The header of the deleted block at a place.
pub fn read_deleted(draft: &Draft, at: Spot) -> DeletedHeader
    requires { at.ofs + DELETED_HEADER_LEN ≤ length (bytes_at draft.now.image at.file) }
    ensures { result ≡ deleted_header_of (part at.ofs DELETED_HEADER_LEN (bytes_at draft.now.image at.file)) }
{
    let mut bytes = [0; DELETED_HEADER_LEN];
    draft.read(at.file, at.ofs, &mut bytes);
    read_deleted_header(&bytes, 0)
}

/// Writes the link of the deleted block at a place to the next one of its list.
pub fn set_next_deleted(draft: &mut Draft, at: Spot, next_deleted: DiskLoc) -> Result<(), NoMemory>
    requires { at.ofs + DELETED_HEADER_LEN ≤ length (bytes_at draft.old.image at.file) }
    ensures written { OnOk result (IsWritten at.file at.ofs DELETED_HEADER_LEN draft.old draft.new) }
    ensures heap { OnOk result ((heap : Heap) (h : DeletedHeader) (rest : List ℕ) → IsHeap draft.old.image heap → heap (at.file, at.ofs) ≡ Some (deleted h rest)
        → IsHeap draft.new.image (change (at.file, at.ofs) (deleted_next_set next_deleted) heap)) }
    ensures weight { DeclaresAtMost (DELETED_HEADER_LEN + 12) draft.old draft.new }
    ensures err { OnErr result (draft.new ≡ draft.old) }
{
    let mut bytes = [0; DELETED_HEADER_LEN];
    draft.read(at.file, at.ofs, &mut bytes);
    put_next_deleted(&mut bytes, 0, next_deleted);
    overwrite(draft, at, &bytes)
}

/// Makes the deleted block at a place a live record with these links. Its bytes behind the header stay.
pub fn set_live(draft: &mut Draft, at: Spot, next_ofs: i32, prev_ofs: i32) -> Result<(), NoMemory>
    requires { at.ofs + REC_HEADER_LEN ≤ length (bytes_at draft.old.image at.file) }
    ensures written { OnOk result (IsWritten at.file at.ofs REC_HEADER_LEN draft.old draft.new) }
    ensures heap { OnOk result ((heap : Heap) (h : DeletedHeader) (rest : List ℕ) → IsHeap draft.old.image heap → heap (at.file, at.ofs) ≡ Some (deleted h rest)
        → IsHeap draft.new.image (change (at.file, at.ofs) (taken next_ofs prev_ofs) heap)) }
    ensures weight { DeclaresAtMost (REC_HEADER_LEN + 12) draft.old draft.new }
    ensures err { OnErr result (draft.new ≡ draft.old) }
{
    let mut bytes = [0; REC_HEADER_LEN];
    draft.read(at.file, at.ofs, &mut bytes);
    put_next_ofs(&mut bytes, 0, next_ofs);
    put_prev_ofs(&mut bytes, 0, prev_ofs);
    overwrite(draft, at, &bytes)
}

/// Leaves the record at a place its front `len` bytes, and makes a deleted block of the others.
pub fn split_record(
    draft: &mut Draft,
    at: Spot,
    len: u32,
    rest: &DeletedHeader,
) -> Result<(), NoMemory>
    requires some { 16 ≤ len }
    requires short { at.ofs + len < 2 ^ 31 }
    requires inside { at.ofs + len + DELETED_HEADER_LEN ≤ length (bytes_at draft.old.image at.file) }
    ensures heap { OnOk result ((heap : Heap) (h : RecHeader) (room : List ℕ) → IsHeap draft.old.image heap → heap (at.file, at.ofs) ≡ Some (live h room) → len ≤ length room
        → IsHeap draft.new.image (put_two (at.file, at.ofs) (front_of len h room) (behind_of (at.file, at.ofs) len) (rest_of len rest.now room) heap)) }
    ensures kept { OnOk result (at.file < 8 → 8192 ≤ at.ofs → KeepsHeaders draft.old.image draft.new.image) }
    ensures weight { DeclaresAtMost (REC_HEADER_LEN + 12 + (DELETED_HEADER_LEN + 12)) draft.old draft.new }
{
    let header = RecHeader {
        length_with_headers: len as i32,
        ..read_record(draft, at)
    };
    let behind = Spot {
        file: at.file,
        ofs: at.ofs + len,
    };
    overwrite(draft, behind, &deleted_header_frame(rest))?;
    overwrite(draft, at, &rec_header_frame(&header))
}
