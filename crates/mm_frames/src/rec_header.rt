//! The header of a live record.

ghost use Rattle.std.specs.Prelude.{◌≡◌, ◌+◌, ◌≤◌, length};
ghost use Rattle.mm_base.specs.Bytes.{part, Puts, PutsField};
ghost use Rattle.mm_base.specs.Fields.{i32_bytes};
ghost use Rattle.mm_frames.specs.RecHeader.{rec_header_of, rec_header_bytes};

use mm_base::{frame, put_i32, read_i32};

/// The length of a record's header, in bytes.
pub const REC_HEADER_LEN: usize = 16;

/// The link that ends a chain of records inside an extent.
pub const CHAIN_END: i32 = -1;

const LENGTH_WITH_HEADERS_AT: usize = 0;

const EXTENT_OFS_AT: usize = 4;

/// Where `next_ofs` stands in the header.
pub const NEXT_OFS_AT: usize = 8;

/// Where `prev_ofs` stands in the header.
pub const PREV_OFS_AT: usize = 12;

/// What stands at the front of a live record.
#[derive(Clone, Copy, Debug, PartialEq, Eq)]
pub struct RecHeader {
    /// The record's length in bytes, its header included.
    pub length_with_headers: i32,
    /// The offset of its extent in the file.
    pub extent_ofs: i32,
    /// The offset of the next record of the extent's chain, or `CHAIN_END`.
    pub next_ofs: i32,
    /// The offset of the record before it in the chain, or `CHAIN_END`.
    pub prev_ofs: i32,
}

/// The record's header at `at`.
#[tactic(auto, using(mm_base::proofs::Sets::signed), unfolding(crate::specs::RecHeader::rec_header_of))]
pub fn read_rec_header(bytes: &[u8], at: usize) -> RecHeader
    requires { at + REC_HEADER_LEN ≤ length bytes.now }
    ensures { result ≡ rec_header_of (part at REC_HEADER_LEN bytes.now) }
{
    let frame = frame(bytes, at, REC_HEADER_LEN);
    RecHeader {
        length_with_headers: read_i32(frame, LENGTH_WITH_HEADERS_AT),
        extent_ofs: read_i32(frame, EXTENT_OFS_AT),
        next_ofs: read_i32(frame, NEXT_OFS_AT),
        prev_ofs: read_i32(frame, PREV_OFS_AT),
    }
}

/// Writes a record's header at `at`.
pub fn put_rec_header(bytes: &mut [u8], at: usize, header: &RecHeader)
    requires { at + REC_HEADER_LEN ≤ length bytes.old }
    ensures { Puts REC_HEADER_LEN rec_header_bytes rec_header_of at header.now bytes.old bytes.new }
{
    put_i32(
        bytes,
        at + LENGTH_WITH_HEADERS_AT,
        header.length_with_headers,
    );
    put_i32(bytes, at + EXTENT_OFS_AT, header.extent_ofs);
    put_i32(bytes, at + NEXT_OFS_AT, header.next_ofs);
    put_i32(bytes, at + PREV_OFS_AT, header.prev_ofs);
}

/// The bytes of a record's header.
#[tactic(auto, using(mm_base::proofs::Sets::whole))]
pub fn rec_header_frame(header: &RecHeader) -> [u8; REC_HEADER_LEN]
    ensures spelled { result ≡ rec_header_bytes header.now }
    ensures again { rec_header_of result ≡ header.now }
{
    let mut frame = [0; REC_HEADER_LEN];
    put_rec_header(&mut frame, 0, header);
    frame
}

/// Writes the link of the record at `at` to the next one.
pub fn put_next_ofs(bytes: &mut [u8], at: usize, next_ofs: i32)
    requires { at + REC_HEADER_LEN ≤ length bytes.old }
    ensures { let old = rec_header_of (part at REC_HEADER_LEN bytes.old) in
        PutsField REC_HEADER_LEN NEXT_OFS_AT (i32_bytes next_ofs) rec_header_of at
        (record old { next_ofs = next_ofs }) bytes.old bytes.new }
{
    put_i32(bytes, at + NEXT_OFS_AT, next_ofs);
}

/// Writes the link of the record at `at` to the one before it.
pub fn put_prev_ofs(bytes: &mut [u8], at: usize, prev_ofs: i32)
    requires { at + REC_HEADER_LEN ≤ length bytes.old }
    ensures { let old = rec_header_of (part at REC_HEADER_LEN bytes.old) in
        PutsField REC_HEADER_LEN PREV_OFS_AT (i32_bytes prev_ofs) rec_header_of at
        (record old { prev_ofs = prev_ofs }) bytes.old bytes.new }
{
    put_i32(bytes, at + PREV_OFS_AT, prev_ofs);
}
