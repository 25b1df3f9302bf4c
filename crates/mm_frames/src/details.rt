//! What the node of a collection or an index says of it.

ghost use Rattle.std.specs.Prelude.{◌≡◌, ◌+◌, ◌*◌, ◌<◌, ◌≤◌, ◌++◌, length, slice_set};
ghost use Rattle.mm_base.specs.Bytes.{part, Puts, PutsField};
ghost use Rattle.mm_base.specs.Fields.{i64_bytes};
ghost use Rattle.mm_base.specs.Places.{place_bytes};
ghost use Rattle.mm_frames.specs.Details.{details_of, details_bytes};

use crate::index_pair::{IndexPair, put_index_pairs, read_index_pairs};
use crate::node_head::NODE_HEAD_LEN;
use mm_base::{
    DiskLoc, PLACE_LEN, frame, put_i32, put_i64, put_place, put_places, put_u16, put_u64,
    put_zeros, read_i32, read_i64, read_place, read_places, read_u16, read_u64,
};

/// The length of a node's details, in bytes.
pub const DETAILS_LEN: usize = 496;

/// The length of a node of the `.ns` file, in bytes: its head and its details.
pub const NODE_LEN: usize = NODE_HEAD_LEN + DETAILS_LEN;

/// How many lists of deleted blocks a namespace has.
pub const DELETED_LISTS: usize = 19;

/// How many pairs of indexes the details have room for.
pub const INDEX_PAIRS: usize = 10;

/// The padding of every namespace: the bits of the double 1.0.
pub const PADDING: u64 = 0x3ff0_0000_0000_0000;

/// `max_docs_in_capped` of a collection that isn't capped.
pub const MAX_DOCS_UNCAPPED: i32 = 0x7fff_ffff;

/// `system_flags` and `user_flags` of a collection.
pub const COLLECTION_FLAGS: i32 = 1;

const FIRST_EXTENT_AT: usize = 0;

const LAST_EXTENT_AT: usize = 8;

/// Where the heads of the lists of deleted blocks stand in the details, eight bytes each.
pub const DELETED_AT: usize = 16;

/// Where `datasize` stands in the details, and `nrecords` behind it.
pub const DATASIZE_AT: usize = 168;

const NRECORDS_AT: usize = 176;

const LAST_EXTENT_SIZE_AT: usize = 184;

const N_INDEXES_AT: usize = 188;

const INDEXES_AT: usize = 192;

const IS_CAPPED_AT: usize = 352;

const MAX_DOCS_IN_CAPPED_AT: usize = 356;

const PADDING_AT: usize = 360;

const SYSTEM_FLAGS_AT: usize = 368;

const CAP_EXTENT_AT: usize = 372;

const CAP_FIRST_NEW_RECORD_AT: usize = 380;

const DATA_FILE_VERSION_AT: usize = 388;

const INDEX_FILE_VERSION_AT: usize = 390;

const MULTIKEY_AT: usize = 392;

const RESERVED_AT: usize = 400;

const EXTRA_OFFSET_AT: usize = 408;

const INDEX_BUILDS_AT: usize = 416;

const USER_FLAGS_AT: usize = 420;

const RESERVED_END_AT: usize = 424;

/// The details of a namespace.
#[derive(Clone, Copy, Debug, PartialEq, Eq)]
pub struct Details {
    /// The first extent of the namespace's chain, or null.
    pub first_extent: DiskLoc,
    /// The last extent of the chain, or null.
    pub last_extent: DiskLoc,
    /// The heads of the lists of deleted blocks, by rising size of the blocks.
    pub deleted: [DiskLoc; DELETED_LISTS],
    /// The sum of the lengths of the live records in bytes, their headers left out.
    pub datasize: i64,
    /// The number of live records.
    pub nrecords: i64,
    /// The length of the last extent in bytes, or 0.
    pub last_extent_size: i32,
    /// How many of `indexes` are in use.
    pub n_indexes: i32,
    /// Where the collection's indexes are; null past `n_indexes`.
    pub indexes: [IndexPair; INDEX_PAIRS],
    /// 0 where the collection isn't capped.
    pub is_capped: i32,
    /// `MAX_DOCS_UNCAPPED` where the collection isn't capped.
    pub max_docs_in_capped: i32,
    /// `PADDING` always.
    pub padding: u64,
    /// `COLLECTION_FLAGS` in a collection's details, else 0.
    pub system_flags: i32,
    /// Null where the collection isn't capped.
    pub cap_extent: DiskLoc,
    /// Null where the collection isn't capped.
    pub cap_first_new_record: DiskLoc,
    pub data_file_version: u16,
    pub index_file_version: u16,
    /// A bit for each index that holds several keys of one document.
    pub multikey: u64,
    /// Where more pairs of indexes stand, or 0.
    pub extra_offset: i64,
    /// How many indexes are being built.
    pub index_builds: i32,
    /// `COLLECTION_FLAGS` in a collection's details, else 0.
    pub user_flags: i32,
}

/// The details at `at`. The reserved bytes aren't looked at.
#[tactic(auto, using(mm_base::proofs::Sets::signed), unfolding(crate::specs::Details::details_of))]
pub fn read_details(bytes: &[u8], at: usize) -> Details
    requires { at + DETAILS_LEN ≤ length bytes.now }
    ensures { result ≡ details_of (part at DETAILS_LEN bytes.now) }
{
    let frame = frame(bytes, at, DETAILS_LEN);
    Details {
        first_extent: read_place(frame, FIRST_EXTENT_AT),
        last_extent: read_place(frame, LAST_EXTENT_AT),
        deleted: read_places(frame, DELETED_AT),
        datasize: read_i64(frame, DATASIZE_AT),
        nrecords: read_i64(frame, NRECORDS_AT),
        last_extent_size: read_i32(frame, LAST_EXTENT_SIZE_AT),
        n_indexes: read_i32(frame, N_INDEXES_AT),
        indexes: read_index_pairs(frame, INDEXES_AT),
        is_capped: read_i32(frame, IS_CAPPED_AT),
        max_docs_in_capped: read_i32(frame, MAX_DOCS_IN_CAPPED_AT),
        padding: read_u64(frame, PADDING_AT),
        system_flags: read_i32(frame, SYSTEM_FLAGS_AT),
        cap_extent: read_place(frame, CAP_EXTENT_AT),
        cap_first_new_record: read_place(frame, CAP_FIRST_NEW_RECORD_AT),
        data_file_version: read_u16(frame, DATA_FILE_VERSION_AT),
        index_file_version: read_u16(frame, INDEX_FILE_VERSION_AT),
        multikey: read_u64(frame, MULTIKEY_AT),
        extra_offset: read_i64(frame, EXTRA_OFFSET_AT),
        index_builds: read_i32(frame, INDEX_BUILDS_AT),
        user_flags: read_i32(frame, USER_FLAGS_AT),
    }
}

/// Writes details at `at`, the reserved bytes as zeros.
pub fn put_details(bytes: &mut [u8], at: usize, details: &Details)
    requires { at + DETAILS_LEN ≤ length bytes.old }
    ensures { Puts DETAILS_LEN details_bytes details_of at details.now bytes.old bytes.new }
{
    put_place(bytes, at + FIRST_EXTENT_AT, details.first_extent);
    put_place(bytes, at + LAST_EXTENT_AT, details.last_extent);
    put_places(bytes, at + DELETED_AT, &details.deleted);
    put_i64(bytes, at + DATASIZE_AT, details.datasize);
    put_i64(bytes, at + NRECORDS_AT, details.nrecords);
    put_i32(bytes, at + LAST_EXTENT_SIZE_AT, details.last_extent_size);
    put_i32(bytes, at + N_INDEXES_AT, details.n_indexes);
    put_index_pairs(bytes, at + INDEXES_AT, &details.indexes);
    put_i32(bytes, at + IS_CAPPED_AT, details.is_capped);
    put_i32(
        bytes,
        at + MAX_DOCS_IN_CAPPED_AT,
        details.max_docs_in_capped,
    );
    put_u64(bytes, at + PADDING_AT, details.padding);
    put_i32(bytes, at + SYSTEM_FLAGS_AT, details.system_flags);
    put_place(bytes, at + CAP_EXTENT_AT, details.cap_extent);
    put_place(
        bytes,
        at + CAP_FIRST_NEW_RECORD_AT,
        details.cap_first_new_record,
    );
    put_u16(bytes, at + DATA_FILE_VERSION_AT, details.data_file_version);
    put_u16(
        bytes,
        at + INDEX_FILE_VERSION_AT,
        details.index_file_version,
    );
    put_u64(bytes, at + MULTIKEY_AT, details.multikey);
    put_zeros(bytes, at + RESERVED_AT, EXTRA_OFFSET_AT - RESERVED_AT);
    put_i64(bytes, at + EXTRA_OFFSET_AT, details.extra_offset);
    put_i32(bytes, at + INDEX_BUILDS_AT, details.index_builds);
    put_i32(bytes, at + USER_FLAGS_AT, details.user_flags);
    put_zeros(bytes, at + RESERVED_END_AT, DETAILS_LEN - RESERVED_END_AT);
}

/// The bytes of details.
#[tactic(auto, using(mm_base::proofs::Sets::whole))]
pub fn details_frame(details: &Details) -> [u8; DETAILS_LEN]
    ensures spelled { result ≡ details_bytes details.now }
    ensures again { details_of result ≡ details.now }
{
    let mut frame = [0; DETAILS_LEN];
    put_details(&mut frame, 0, details);
    frame
}

/// Writes the head of one list of deleted blocks in the details at `at`.
pub fn put_list_head(bytes: &mut [u8], at: usize, list: usize, head: DiskLoc)
    requires inside { at + DETAILS_LEN ≤ length bytes.old }
    requires there { list < DELETED_LISTS }
    ensures { let old = details_of (part at DETAILS_LEN bytes.old) in
        PutsField DETAILS_LEN (DELETED_AT + PLACE_LEN * list) (place_bytes head) details_of at
        (record old { deleted = slice_set old.deleted list head }) bytes.old bytes.new }
{
    put_place(bytes, at + (DELETED_AT + PLACE_LEN * list), head);
}

/// Writes the two sums over the live records in the details at `at`.
pub fn put_counts(bytes: &mut [u8], at: usize, datasize: i64, nrecords: i64)
    requires { at + DETAILS_LEN ≤ length bytes.old }
    ensures { let old = details_of (part at DETAILS_LEN bytes.old) in
        PutsField DETAILS_LEN DATASIZE_AT (i64_bytes datasize ++ i64_bytes nrecords) details_of at
        (record old { datasize = datasize; nrecords = nrecords }) bytes.old bytes.new }
{
    put_i64(bytes, at + DATASIZE_AT, datasize);
    put_i64(bytes, at + NRECORDS_AT, nrecords);
}
