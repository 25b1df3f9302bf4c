//! The header of a deleted block.

ghost use Rattle.std.specs.Prelude.{◌≡◌, ◌+◌, ◌≤◌, length};
ghost use Rattle.mm_base.specs.Bytes.{part, Puts, PutsField};
ghost use Rattle.mm_base.specs.Places.{place_bytes};
ghost use Rattle.mm_frames.specs.DeletedHeader.{deleted_header_of, deleted_header_bytes};

use mm_base::{DiskLoc, frame, put_i32, put_place, read_i32, read_place};

/// The length of a deleted block's header, in bytes.
pub const DELETED_HEADER_LEN: usize = 16;

const LENGTH_WITH_HEADERS_AT: usize = 0;

const EXTENT_OFS_AT: usize = 4;

/// Where `next_deleted` stands in the header.
pub const NEXT_DELETED_AT: usize = 8;

/// What stands at the front of a deleted block.
#[derive(Clone, Copy, Debug, PartialEq, Eq)]
pub struct DeletedHeader {
    /// The block's length in bytes, its header included.
    pub length_with_headers: i32,
    /// The offset of its extent in the file.
    pub extent_ofs: i32,
    /// The next block of the deleted list, or null.
    pub next_deleted: DiskLoc,
}

/// The deleted block's header at `at`.
#[tactic(auto, using(mm_base::proofs::Sets::signed), unfolding(crate::specs::DeletedHeader::deleted_header_of))]
pub fn read_deleted_header(bytes: &[u8], at: usize) -> DeletedHeader
    requires { at + DELETED_HEADER_LEN ≤ length bytes.now }
    ensures { result ≡ deleted_header_of (part at DELETED_HEADER_LEN bytes.now) }
{
    let frame = frame(bytes, at, DELETED_HEADER_LEN);
    DeletedHeader {
        length_with_headers: read_i32(frame, LENGTH_WITH_HEADERS_AT),
        extent_ofs: read_i32(frame, EXTENT_OFS_AT),
        next_deleted: read_place(frame, NEXT_DELETED_AT),
    }
}

/// Writes a deleted block's header at `at`.
pub fn put_deleted_header(bytes: &mut [u8], at: usize, header: &DeletedHeader)
    requires { at + DELETED_HEADER_LEN ≤ length bytes.old }
    ensures { Puts DELETED_HEADER_LEN deleted_header_bytes deleted_header_of at
        header.now bytes.old bytes.new }
{
    put_i32(
        bytes,
        at + LENGTH_WITH_HEADERS_AT,
        header.length_with_headers,
    );
    put_i32(bytes, at + EXTENT_OFS_AT, header.extent_ofs);
    put_place(bytes, at + NEXT_DELETED_AT, header.next_deleted);
}

/// The bytes of a deleted block's header.
#[tactic(auto, using(mm_base::proofs::Sets::whole))]
pub fn deleted_header_frame(header: &DeletedHeader) -> [u8; DELETED_HEADER_LEN]
    ensures spelled { result ≡ deleted_header_bytes header.now }
    ensures again { deleted_header_of result ≡ header.now }
{
    let mut frame = [0; DELETED_HEADER_LEN];
    put_deleted_header(&mut frame, 0, header);
    frame
}

/// Writes the link of the deleted block at `at` to the next one.
pub fn put_next_deleted(bytes: &mut [u8], at: usize, next_deleted: DiskLoc)
    requires { at + DELETED_HEADER_LEN ≤ length bytes.old }
    ensures { let old = deleted_header_of (part at DELETED_HEADER_LEN bytes.old) in
        PutsField DELETED_HEADER_LEN NEXT_DELETED_AT (place_bytes next_deleted) deleted_header_of at
        (record old { next_deleted = next_deleted }) bytes.old bytes.new }
{
    put_place(bytes, at + NEXT_DELETED_AT, next_deleted);
}
