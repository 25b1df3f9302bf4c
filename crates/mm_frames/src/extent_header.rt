//! The header of an extent.

ghost use Rattle.std.specs.Prelude.{◌≡◌, ◌+◌, ◌≤◌, length};
ghost use Rattle.mm_base.specs.Bytes.{part, Puts, PutsField};
ghost use Rattle.mm_base.specs.Places.{place_bytes};
ghost use Rattle.mm_frames.specs.ExtentHeader.{extent_header_of, extent_header_bytes};

use mm_base::{
    DiskLoc, NAME_FIELD_LEN, frame, put_bytes, put_i32, put_place, put_u32, read_array, read_i32,
    read_place, read_u32,
};

/// The length of an extent's header, in bytes.
pub const EXTENT_HEADER_LEN: usize = 176;

/// The first word of every extent.
pub const EXTENT_MAGIC: u32 = 0x41424344;

const MAGIC_AT: usize = 0;

const MY_LOC_AT: usize = 4;

/// Where `xnext` stands in the header.
pub const XNEXT_AT: usize = 12;

/// Where `xprev` stands in the header.
pub const XPREV_AT: usize = 20;

const NAMESPACE_AT: usize = 28;

const LENGTH_AT: usize = 156;

/// Where `first_record` stands in the header.
pub const FIRST_RECORD_AT: usize = 160;

/// Where `last_record` stands in the header.
pub const LAST_RECORD_AT: usize = 168;

/// What stands at the front of an extent.
#[derive(Clone, Copy, Debug, PartialEq, Eq)]
pub struct ExtentHeader {
    /// `EXTENT_MAGIC` in every extent.
    pub magic: u32,
    /// The extent's own place.
    pub my_loc: DiskLoc,
    /// The next extent of the namespace's chain, or null.
    pub xnext: DiskLoc,
    /// The extent before it in the chain, or null.
    pub xprev: DiskLoc,
    /// The namespace's name, zero padded.
    pub namespace: [u8; NAME_FIELD_LEN],
    /// The extent's length in bytes, its header included.
    pub len: i32,
    /// The first live record of the extent, or null.
    pub first_record: DiskLoc,
    /// The last live record of the extent, or null.
    pub last_record: DiskLoc,
}

/// The extent's header at `at`.
#[tactic(auto, using(mm_base::proofs::Sets::signed), unfolding(crate::specs::ExtentHeader::extent_header_of))]
pub fn read_extent_header(bytes: &[u8], at: usize) -> ExtentHeader
    requires { at + EXTENT_HEADER_LEN ≤ length bytes.now }
    ensures { result ≡ extent_header_of (part at EXTENT_HEADER_LEN bytes.now) }
{
    let frame = frame(bytes, at, EXTENT_HEADER_LEN);
    ExtentHeader {
        magic: read_u32(frame, MAGIC_AT),
        my_loc: read_place(frame, MY_LOC_AT),
        xnext: read_place(frame, XNEXT_AT),
        xprev: read_place(frame, XPREV_AT),
        namespace: read_array(frame, NAMESPACE_AT),
        len: read_i32(frame, LENGTH_AT),
        first_record: read_place(frame, FIRST_RECORD_AT),
        last_record: read_place(frame, LAST_RECORD_AT),
    }
}

/// Writes an extent's header at `at`.
pub fn put_extent_header(bytes: &mut [u8], at: usize, header: &ExtentHeader)
    requires { at + EXTENT_HEADER_LEN ≤ length bytes.old }
    ensures { Puts EXTENT_HEADER_LEN extent_header_bytes extent_header_of at
        header.now bytes.old bytes.new }
{
    put_u32(bytes, at + MAGIC_AT, header.magic);
    put_place(bytes, at + MY_LOC_AT, header.my_loc);
    put_place(bytes, at + XNEXT_AT, header.xnext);
    put_place(bytes, at + XPREV_AT, header.xprev);
    put_bytes(bytes, at + NAMESPACE_AT, &header.namespace);
    put_i32(bytes, at + LENGTH_AT, header.len);
    put_place(bytes, at + FIRST_RECORD_AT, header.first_record);
    put_place(bytes, at + LAST_RECORD_AT, header.last_record);
}

/// The bytes of an extent's header.
#[tactic(auto, using(mm_base::proofs::Sets::whole))]
pub fn extent_header_frame(header: &ExtentHeader) -> [u8; EXTENT_HEADER_LEN]
    ensures spelled { result ≡ extent_header_bytes header.now }
    ensures again { extent_header_of result ≡ header.now }
{
    let mut frame = [0; EXTENT_HEADER_LEN];
    put_extent_header(&mut frame, 0, header);
    frame
}

/// Writes the link of the extent at `at` to the next one.
pub fn put_xnext(bytes: &mut [u8], at: usize, xnext: DiskLoc)
    requires { at + EXTENT_HEADER_LEN ≤ length bytes.old }
    ensures { let old = extent_header_of (part at EXTENT_HEADER_LEN bytes.old) in
        PutsField EXTENT_HEADER_LEN XNEXT_AT (place_bytes xnext) extent_header_of at
        (record old { xnext = xnext }) bytes.old bytes.new }
{
    put_place(bytes, at + XNEXT_AT, xnext);
}

/// Writes the link of the extent at `at` to the one before it.
pub fn put_xprev(bytes: &mut [u8], at: usize, xprev: DiskLoc)
    requires { at + EXTENT_HEADER_LEN ≤ length bytes.old }
    ensures { let old = extent_header_of (part at EXTENT_HEADER_LEN bytes.old) in
        PutsField EXTENT_HEADER_LEN XPREV_AT (place_bytes xprev) extent_header_of at
        (record old { xprev = xprev }) bytes.old bytes.new }
{
    put_place(bytes, at + XPREV_AT, xprev);
}

/// Writes the place of the first record of the extent at `at`.
pub fn put_first_record(bytes: &mut [u8], at: usize, first_record: DiskLoc)
    requires { at + EXTENT_HEADER_LEN ≤ length bytes.old }
    ensures { let old = extent_header_of (part at EXTENT_HEADER_LEN bytes.old) in
        PutsField EXTENT_HEADER_LEN FIRST_RECORD_AT (place_bytes first_record) extent_header_of at
        (record old { first_record = first_record }) bytes.old bytes.new }
{
    put_place(bytes, at + FIRST_RECORD_AT, first_record);
}

/// Writes the place of the last record of the extent at `at`.
pub fn put_last_record(bytes: &mut [u8], at: usize, last_record: DiskLoc)
    requires { at + EXTENT_HEADER_LEN ≤ length bytes.old }
    ensures { let old = extent_header_of (part at EXTENT_HEADER_LEN bytes.old) in
        PutsField EXTENT_HEADER_LEN LAST_RECORD_AT (place_bytes last_record) extent_header_of at
        (record old { last_record = last_record }) bytes.old bytes.new }
{
    put_place(bytes, at + LAST_RECORD_AT, last_record);
}
