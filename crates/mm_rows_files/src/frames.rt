//! Frames in bytes.

use crate::judging::{same, same_bytes};
use mm_base::{DiskLoc, frame, is_zero};
use mm_frames::*;

/// A record of 32 bytes, alone in the extent at 8192.
const RECORD: [u8; 18] = [
    0xaa, 0x20, 0x00, 0x00, 0x00, 0x00, 0x20, 0x00, 0x00, 0xff, 0xff, 0xff, 0xff, 0xff, 0xff, 0xff,
    0xff, 0xaa,
];

/// A deleted block of 16176 bytes, the last of its list; the offset of its null link is 7.
const DELETED: [u8; 16] = [
    0x30, 0x3f, 0x00, 0x00, 0x00, 0x20, 0x00, 0x00, 0xff, 0xff, 0xff, 0xff, 0x07, 0x00, 0x00, 0x00,
];

#[test]
fn spells_blocks(rt: HostRuntime) {
    let mut bytes = [0xaa; 18];
    let header = RecHeader {
        length_with_headers: 32,
        extent_ofs: 8192,
        next_ofs: CHAIN_END,
        prev_ofs: CHAIN_END,
    };
    put_rec_header(&mut bytes, 1, &header);
    same_bytes(&rt, &bytes, &RECORD);
    same_bytes(&rt, &rec_header_frame(&header), &RECORD[1..17]);
    same(&rt, &read_rec_header(&RECORD, 1), &header);
    put_next_ofs(&mut bytes, 1, 8400);
    put_prev_ofs(&mut bytes, 1, 8368);
    same_bytes(&rt, &bytes[9..], b"\xd0\x20\0\0\xb0\x20\0\0\xaa");
}

/// The deleted block behind two other bytes; the offset of its null link is 0.
const DELETED_BEHIND: [u8; 18] = [
    0xaa, 0xaa, 0x30, 0x3f, 0x00, 0x00, 0x00, 0x20, 0x00, 0x00, 0xff, 0xff, 0xff, 0xff, 0x00, 0x00,
    0x00, 0x00,
];

#[test]
fn spells_deleted_blocks(rt: HostRuntime) {
    let mut bytes = [0xaa; 18];
    let deleted = read_deleted_header(&DELETED, 0);
    let expected = DeletedHeader {
        length_with_headers: 16176,
        extent_ofs: 8192,
        next_deleted: DiskLoc::NULL,
    };
    put_deleted_header(&mut bytes, 2, &deleted);
    same(&rt, &deleted, &expected);
    same_bytes(&rt, &bytes, &DELETED_BEHIND);
    same_bytes(&rt, &deleted_header_frame(&deleted), &DELETED_BEHIND[2..]);
    put_next_deleted(&mut bytes, 2, DiskLoc { file: 1, ofs: 256 });
    same_bytes(&rt, &bytes[10..], b"\x01\0\0\0\0\x01\0\0");
}

#[test]
fn spells_file_headers(rt: HostRuntime) {
    let mut bytes = [0xaa; FILE_HEADER_LEN];
    let header = FileHeader {
        version: DATA_FILE_VERSION,
        version_minor: DATA_FILE_VERSION_MINOR,
        file_length: 1048576,
        unused: DiskLoc { file: 0, ofs: 8192 },
        unused_length: 1040384,
    };
    let before = is_file_header(&bytes, 0);
    put_file_header(&mut bytes, 0, &header);
    same_bytes(
        &rt,
        &bytes[..24],
        b"\x04\0\0\0\x05\0\0\0\0\0\x10\0\0\0\0\0\0\x20\0\0\0\xe0\x0f\0",
    );
    same(&rt, &read_file_header(&bytes, 0), &header);
    let is_put = is_file_header(&bytes, 0) && is_zero(&bytes, 24, 8168);
    bytes[8191] = 1;
    let changed = is_file_header(&bytes, 0);
    same(&rt, &[before, is_put, changed], &[false, true, false]);
}

/// The extent of `test.c` in a new file, with two records.
fn extent_header() -> ExtentHeader {
    let mut namespace = [0; 128];
    namespace[..6].copy_from_slice(b"test.c");
    ExtentHeader {
        magic: EXTENT_MAGIC,
        my_loc: DiskLoc {
            file: 0,
            ofs: 40960,
        },
        xnext: DiskLoc::NULL,
        xprev: DiskLoc::NULL,
        namespace,
        len: 16384,
        first_record: DiskLoc {
            file: 0,
            ofs: 41136,
        },
        last_record: DiskLoc {
            file: 0,
            ofs: 41168,
        },
    }
}

/// What stands before the name's zeros, and behind them.
const EXTENT_FRONT: &[u8] =
    b"DCBA\0\0\0\0\0\xa0\0\0\xff\xff\xff\xff\0\0\0\0\xff\xff\xff\xff\0\0\0\0test.c";

const EXTENT_END: &[u8] = b"\0\x40\0\0\0\0\0\0\xb0\xa0\0\0\0\0\0\0\xd0\xa0\0\0";

#[test]
fn spells_extents(rt: HostRuntime) {
    let header = extent_header();
    let mut bytes = [0xaa; EXTENT_HEADER_LEN];
    put_extent_header(&mut bytes, 0, &header);
    same_bytes(&rt, frame(&bytes, 0, 34), EXTENT_FRONT);
    same_bytes(&rt, frame(&bytes, 34, 122), &[0; 122]);
    same_bytes(&rt, frame(&bytes, 156, 20), EXTENT_END);
    same(&rt, &read_extent_header(&bytes, 0), &header);
    same_bytes(&rt, &extent_header_frame(&header), &bytes);
}

#[test]
fn links_extents(rt: HostRuntime) {
    let header = extent_header();
    let mut bytes = extent_header_frame(&header);
    put_xnext(&mut bytes, 0, header.my_loc);
    put_xprev(&mut bytes, 0, header.last_record);
    put_first_record(&mut bytes, 0, DiskLoc::NULL);
    put_last_record(&mut bytes, 0, DiskLoc::NULL);
    let changed = ExtentHeader {
        xnext: header.my_loc,
        xprev: header.last_record,
        first_record: DiskLoc::NULL,
        last_record: DiskLoc::NULL,
        ..header
    };
    same(&rt, &read_extent_header(&bytes, 0), &changed);
}

/// The first of the places at which the bytes don't go on with their part.
pub fn missing(bytes: &[u8], parts: &[(usize, &[u8])]) -> Option<usize> {
    for (at, part) in parts {
        if !bytes.get(*at..).unwrap_or(b"").starts_with(part) {
            return Some(*at);
        }
    }
    None
}

/// Where the node of a collection with one index has bytes other than zeros and nulls: after its hash and name.
const NODE_PARTS: [(usize, &[u8]); 13] = [
    (0, b"\x55\x7e\x19\x08a.b\0"),
    (132, b"\0\0\0\0\0\xa0\0\0"),
    (140, b"\0\0\0\0\0\xa0\0\0"),
    (148, b"\xff\xff\xff\xff\0\0\0\0"),
    (292, b"\0\0\0\0\xd0\xa0\0\0"),
    (300, b"\x20\0\0\0\0\0\0\0"),
    (308, b"\x02\0\0\0\0\0\0\0"),
    (316, b"\0\x40\0\0\x01\0\0\0"),
    (324, b"\0\0\0\0\xb0\x60\0\0"),
    (332, b"\0\0\0\0\xb0\x20\0\0"),
    (484, b"\0\0\0\0\xff\xff\xff\x7f"),
    (492, b"\0\0\0\0\0\0\xf0\x3f"),
    (500, b"\x01\0\0\0\xff\xff\xff\xff"),
];

fn place(ofs: i32) -> DiskLoc {
    DiskLoc { file: 0, ofs }
}

// The details of a new collection with one index.
fn new_details() -> Details {
    let mut indexes = [IndexPair::NULL; INDEX_PAIRS];
    indexes[0] = IndexPair {
        head: place(24752),
        info: place(8368),
    };
    Details {
        first_extent: place(40960),
        last_extent: place(40960),
        deleted: [DiskLoc::NULL; DELETED_LISTS],
        datasize: 0,
        nrecords: 0,
        last_extent_size: 16384,
        n_indexes: 1,
        indexes,
        is_capped: 0,
        max_docs_in_capped: MAX_DOCS_UNCAPPED,
        padding: PADDING,
        system_flags: COLLECTION_FLAGS,
        cap_extent: DiskLoc::NULL,
        cap_first_new_record: DiskLoc::NULL,
        data_file_version: 0,
        index_file_version: 0,
        multikey: 0,
        extra_offset: 0,
        index_builds: 0,
        user_flags: COLLECTION_FLAGS,
    }
}

/// A node with its details, and then with other counts and another list of deleted records.
fn node_bytes(head: &NodeHead) -> [u8; NODE_LEN] {
    let mut bytes = [0xaa; NODE_LEN];
    put_node_head(&mut bytes, 0, head);
    put_details(&mut bytes, NODE_HEAD_LEN, &new_details());
    put_counts(&mut bytes, NODE_HEAD_LEN, 32, 2);
    put_list_head(&mut bytes, NODE_HEAD_LEN, 18, place(41168));
    bytes
}

#[test]
fn spells_nodes(rt: HostRuntime) {
    let mut name = [0; 128];
    name[..3].copy_from_slice(b"a.b");
    let head = NodeHead {
        hash: 0x08197e55,
        name,
    };
    let bytes = node_bytes(&head);
    same(&rt, &missing(&bytes, &NODE_PARTS), &None);
    same_bytes(&rt, &bytes[520..552], &[0; 32]);
    same_bytes(&rt, &bytes[552..556], &[1, 0, 0, 0]);
    same_bytes(&rt, &bytes[556..], &[0; 72]);
    same(&rt, &read_node_head(&bytes, 0), &head);
}

#[test]
fn reads_nodes(rt: HostRuntime) {
    let head = NodeHead {
        hash: 0,
        name: [0; 128],
    };
    let mut bytes = node_bytes(&head);
    let mut details = new_details();
    details.datasize = 32;
    details.nrecords = 2;
    details.deleted[18] = place(41168);
    same(&rt, &read_details(&bytes, NODE_HEAD_LEN), &details);
    put_index_pair(&mut bytes, 324, &IndexPair::NULL);
    same(&rt, &read_index_pair(&bytes, 324), &IndexPair::NULL);
}
