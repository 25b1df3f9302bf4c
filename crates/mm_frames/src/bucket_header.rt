//! The header of a bucket.

ghost use Rattle.std.specs.Prelude.{◌≡◌, ◌+◌, ◌≤◌, length};
ghost use Rattle.mm_base.specs.Bytes.{part, Puts, PutsField};
ghost use Rattle.mm_base.specs.Places.{place_bytes};
ghost use Rattle.mm_frames.specs.BucketHeader.{bucket_header_of, bucket_header_bytes};

use mm_base::{
    DiskLoc, frame, put_i32, put_place, put_u16, put_zeros, read_i32, read_place, read_u16,
};

/// The length of a bucket's header, in bytes.
pub const BUCKET_HEADER_LEN: usize = 40;

/// The flags of every bucket.
pub const BUCKET_FLAGS: i32 = 1;

/// Where `parent` stands in the header.
pub const PARENT_AT: usize = 0;

const NEXT_CHILD_AT: usize = 8;

const WAS_SIZE_AT: usize = 16;

const RESERVED_SIZE_AT: usize = 18;

const FLAGS_AT: usize = 20;

const EMPTY_SIZE_AT: usize = 24;

const TOP_SIZE_AT: usize = 28;

const N_AT: usize = 32;

const RESERVED_AT: usize = 36;

/// What stands at the front of a bucket.
#[derive(Clone, Copy, Debug, PartialEq, Eq)]
pub struct BucketHeader {
    /// The bucket above, or null in the root.
    pub parent: DiskLoc,
    /// The child whose pairs stand behind all of the bucket, or null in a leaf.
    pub next_child: DiskLoc,
    /// 0 in every bucket.
    pub was_size: u16,
    /// 0 in every bucket.
    pub reserved_size: u16,
    /// `BUCKET_FLAGS` in every bucket.
    pub flags: i32,
    /// How many bytes lie free between key nodes and keys.
    pub empty_size: i32,
    /// How many bytes the keys have, at the bucket's end.
    pub top_size: i32,
    /// How many pairs it has.
    pub n: i32,
}

/// The bucket's header at `at`.
#[tactic(auto, using(mm_base::proofs::Sets::signed), unfolding(crate::specs::BucketHeader::bucket_header_of))]
pub fn read_bucket_header(bytes: &[u8], at: usize) -> BucketHeader
    requires { at + BUCKET_HEADER_LEN ≤ length bytes.now }
    ensures { result ≡ bucket_header_of (part at BUCKET_HEADER_LEN bytes.now) }
{
    let frame = frame(bytes, at, BUCKET_HEADER_LEN);
    BucketHeader {
        parent: read_place(frame, PARENT_AT),
        next_child: read_place(frame, NEXT_CHILD_AT),
        was_size: read_u16(frame, WAS_SIZE_AT),
        reserved_size: read_u16(frame, RESERVED_SIZE_AT),
        flags: read_i32(frame, FLAGS_AT),
        empty_size: read_i32(frame, EMPTY_SIZE_AT),
        top_size: read_i32(frame, TOP_SIZE_AT),
        n: read_i32(frame, N_AT),
    }
}

/// Writes a bucket's header at `at`.
pub fn put_bucket_header(bytes: &mut [u8], at: usize, header: &BucketHeader)
    requires { at + BUCKET_HEADER_LEN ≤ length bytes.old }
    ensures { Puts BUCKET_HEADER_LEN bucket_header_bytes bucket_header_of at
        header.now bytes.old bytes.new }
{
    put_place(bytes, at + PARENT_AT, header.parent);
    put_place(bytes, at + NEXT_CHILD_AT, header.next_child);
    put_u16(bytes, at + WAS_SIZE_AT, header.was_size);
    put_u16(bytes, at + RESERVED_SIZE_AT, header.reserved_size);
    put_i32(bytes, at + FLAGS_AT, header.flags);
    put_i32(bytes, at + EMPTY_SIZE_AT, header.empty_size);
    put_i32(bytes, at + TOP_SIZE_AT, header.top_size);
    put_i32(bytes, at + N_AT, header.n);
    put_zeros(bytes, at + RESERVED_AT, BUCKET_HEADER_LEN - RESERVED_AT);
}

/// The bytes of a bucket's header.
#[tactic(auto, using(mm_base::proofs::Sets::whole))]
pub fn bucket_header_frame(header: &BucketHeader) -> [u8; BUCKET_HEADER_LEN]
    ensures spelled { result ≡ bucket_header_bytes header.now }
    ensures again { bucket_header_of result ≡ header.now }
{
    let mut frame = [0; BUCKET_HEADER_LEN];
    put_bucket_header(&mut frame, 0, header);
    frame
}

/// Writes the parent of the bucket at `at`.
pub fn put_parent(bytes: &mut [u8], at: usize, parent: DiskLoc)
    requires { at + BUCKET_HEADER_LEN ≤ length bytes.old }
    ensures { let old = bucket_header_of (part at BUCKET_HEADER_LEN bytes.old) in
        PutsField BUCKET_HEADER_LEN PARENT_AT (place_bytes parent) bucket_header_of at
        (record old { parent = parent }) bytes.old bytes.new }
{
    put_place(bytes, at + PARENT_AT, parent);
}
