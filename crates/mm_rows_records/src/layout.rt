//! What the files of a new database are, byte by byte, once three namespaces have a record each.

ghost use Rattle.std.specs.Prelude.{◌≡◌, ◌+◌, ◌≤◌, length, OnOk};
ghost use Rattle.mm_ranges.specs.Overlay.{bytes_at};
ghost use Rattle.mm_nstable.specs.FreeChain.{IsFreeName};
ghost use Rattle.mm_records.specs.Constants.{is_collection};
ghost use Rattle.mm_rows_records.specs.Drafted.{AreGood};

use crate::calls::{begun, namespace, store, taken};
use crate::names::{collection, index, indexes};
use mm_base::{DiskLoc, Name, NoMemory};
use mm_records::{Request, SpaceFault};
use mm_views::{Draft, NS_FILE};
use std::alloc::Global;
use std::test::Fail;

/// `{"_id": 1}`.
const DOC: &[u8] = b"\x0e\0\0\0\x10_id\0\x01\0\0\0\0";

/// `{"v": 0, "key": {"_id": 1}, "ns": "test.c", "name": "_id_"}`.
const INDEX_RECORD: &[u8] =
    b"\x3d\0\0\0\x10v\0\0\0\0\0\x03key\0\x0e\0\0\0\x10_id\0\x01\0\0\0\0\x02ns\0\x07\0\0\0test.c\0\x02name\0\x05\0\0\0_id_\0\0";

/// Data file 0: its header, and of each extent its header, its record and the deleted block behind.
const DATA: [(usize, &[u8]); 13] = [
    (
        0,
        b"\x04\0\0\0\x05\0\0\0\0\0\x10\0\0\0\0\0\0\xe0\0\0\0\x20\x0f\0\0\0\0\0",
    ),
    (
        0x2000,
        b"DCBA\0\0\0\0\0\x20\0\0\xff\xff\xff\xff\0\0\0\0\xff\xff\xff\xff\0\0\0\0test.system.indexes\0",
    ),
    (
        0x209c,
        b"\0\x40\0\0\0\0\0\0\xb0\x20\0\0\0\0\0\0\xb0\x20\0\0",
    ),
    (
        0x20b0,
        b"\x80\0\0\0\0\x20\0\0\xff\xff\xff\xff\xff\xff\xff\xff\x3d\0\0\0\x10v\0",
    ),
    (0x2130, b"\xd0\x3e\0\0\0\x20\0\0\xff\xff\xff\xff\0\0\0\0"),
    (
        0x6000,
        b"DCBA\0\0\0\0\0\x60\0\0\xff\xff\xff\xff\0\0\0\0\xff\xff\xff\xff\0\0\0\0test.c.$_id_\0",
    ),
    (
        0x609c,
        b"\0\x40\0\0\0\0\0\0\xb0\x60\0\0\0\0\0\0\xb0\x60\0\0",
    ),
    (
        0x60b0,
        b"\x10\x20\0\0\0\x60\0\0\xff\xff\xff\xff\xff\xff\xff\xff",
    ),
    (0x80c0, b"\x40\x1f\0\0\0\x60\0\0\xff\xff\xff\xff\0\0\0\0"),
    (
        0xa000,
        b"DCBA\0\0\0\0\0\xa0\0\0\xff\xff\xff\xff\0\0\0\0\xff\xff\xff\xff\0\0\0\0test.c\0",
    ),
    (
        0xa09c,
        b"\0\x40\0\0\0\0\0\0\xb0\xa0\0\0\0\0\0\0\xb0\xa0\0\0",
    ),
    (
        0xa0b0,
        b"\x20\0\0\0\0\xa0\0\0\xff\xff\xff\xff\xff\xff\xff\xff\x0e\0\0\0\x10_id\0\x01\0\0\0\0",
    ),
    (0xa0d0, b"\x30\x3f\0\0\0\xa0\0\0\xff\xff\xff\xff\0\0\0\0"),
];

/// Where the node of `test.c` stands in a `.ns` of 1 MiB: number 870 of 1669.
const NODE_AT: u32 = 0x85638;

/// The node of `test.c`: hash and name, the ends of its extents, the first heads of its lists, the one that has a block and the one behind
/// it, counts, the first pair of an index, and the fields that no record changes.
const NODE: [(usize, &[u8]); 10] = [
    (0, b"\xb3\x72\x62\x7ctest.c\0"),
    (132, b"\0\0\0\0\0\xa0\0\0\0\0\0\0\0\xa0\0\0"),
    (148, b"\xff\xff\xff\xff\0\0\0\0\xff\xff\xff\xff\0\0\0\0"),
    (
        212,
        b"\xff\xff\xff\xff\0\0\0\0\0\0\0\0\xd0\xa0\0\0\xff\xff\xff\xff\0\0\0\0",
    ),
    (
        300,
        b"\x10\0\0\0\0\0\0\0\x01\0\0\0\0\0\0\0\0\x40\0\0\0\0\0\0",
    ),
    (324, b"\xff\xff\xff\xff\0\0\0\0\xff\xff\xff\xff\0\0\0\0"),
    (484, b"\0\0\0\0\xff\xff\xff\x7f\0\0\0\0\0\0\xf0\x3f"),
    (
        500,
        b"\x01\0\0\0\xff\xff\xff\xff\0\0\0\0\xff\xff\xff\xff\0\0\0\0",
    ),
    (
        520,
        b"\0\0\0\0\0\0\0\0\0\0\0\0\0\0\0\0\0\0\0\0\0\0\0\0\0\0\0\0\0\0\0\0\x01\0\0\0",
    ),
    (
        556,
        b"\0\0\0\0\0\0\0\0\0\0\0\0\0\0\0\0\0\0\0\0\0\0\0\0\0\0\0\0\0\0\0\0\0\0\0\0\0\0\0\0\0\0\0\0\0\0\0\0\0\0\0\0\0\0\0\0\0\0\0\0\0\0\0\0\0\0\0\0\0\0\0\0",
    ),
];

/// Takes a place in the namespace of a name, which is put in where it isn't there.
pub(crate) fn place_in(
    draft: &mut Draft,
    name: &Name,
    kind: bool,
    request: Request,
    payload: &[u8],
) -> Result<DiskLoc, SpaceFault>
    requires good { AreGood draft.old.image }
    requires kind { is_collection name.now ≡ kind }
    requires named { IsFreeName name.now → ⊥ }
    requires short { length payload.now ≤ 8192 }
    ensures { OnOk result (AreGood draft.new.image) }
{
    namespace(draft, name, kind)?;
    match store(draft, name) {
        Some(store) => taken(draft, store, request, payload),
        None => Err(SpaceFault::NoMemory),
    }
}

fn place_of_list(draft: &mut Draft) -> Result<DiskLoc, SpaceFault>
    requires { AreGood draft.old.image }
    ensures { OnOk result (AreGood draft.new.image) }
{
    match indexes() {
        Some(name) => place_in(draft, &name, false, Request::Record, INDEX_RECORD),
        None => Err(SpaceFault::NoMemory),
    }
}

fn place_of_bucket(draft: &mut Draft) -> Result<DiskLoc, SpaceFault>
    requires { AreGood draft.old.image }
    ensures { OnOk result (AreGood draft.new.image) }
{
    match index() {
        Some(name) => place_in(draft, &name, false, Request::Bucket, &[0; 8192]),
        None => Err(SpaceFault::NoMemory),
    }
}

fn place_of_doc(draft: &mut Draft) -> Result<DiskLoc, SpaceFault>
    requires { AreGood draft.old.image }
    ensures { OnOk result (AreGood draft.new.image) }
{
    match collection() {
        Some(name) => place_in(draft, &name, true, Request::Record, DOC),
        None => Err(SpaceFault::NoMemory),
    }
}

// The places of the first records of the list of indexes, of an index and of its collection, in this order.
fn first_in(draft: &mut Draft) -> Result<[DiskLoc; 3], SpaceFault>
    requires { AreGood draft.old.image }
    ensures { OnOk result (AreGood draft.new.image) }
{
    let a = place_of_list(draft)?;
    let b = place_of_bucket(draft)?;
    let c = place_of_doc(draft)?;
    Ok([a, b, c])
}

fn first_places(alloc: Global) -> Result<[DiskLoc; 3], SpaceFault> {
    let mut draft = begun(alloc)?;
    first_in(&mut draft)
}

// So many bytes of a file.
fn read_part(
    alloc: Global,
    draft: &Draft,
    file: u32,
    ofs: u32,
    len: usize,
) -> Result<Vec<u8>, NoMemory>
    requires { ofs + len ≤ length (bytes_at draft.now.image file) }
{
    let mut bytes = vec![in alloc; 0; len]?;
    draft.read(file, ofs, &mut bytes);
    Ok(bytes)
}

// The front of data file 0, and the node of the collection, once each of the three has its record.
fn drawn_in(alloc: Global, draft: &mut Draft) -> Result<[Vec<u8>; 2], SpaceFault>
    requires { AreGood draft.old.image }
{
    first_in(draft)?;
    let data = read_part(alloc, draft, 0, 0, 57_344)?;
    let node = read_part(alloc, draft, NS_FILE, NODE_AT, 628)?;
    Ok([data, node])
}

fn drawn(alloc: Global) -> Result<[Vec<u8>; 2], SpaceFault> {
    let mut draft = begun(alloc)?;
    drawn_in(alloc, &mut draft)
}

// The first of the places at which the bytes don't go on with their part.
fn missing(bytes: &[u8], parts: &[(usize, &[u8])]) -> Option<usize> {
    for (at, part) in parts {
        if !bytes.get(*at..).unwrap_or(b"").starts_with(part) {
            return Some(*at);
        }
    }
    None
}

// In a new database the extents of the list of indexes, of an index and of its collection begin at 8192, 24576 and 40960 of file 0, and the
// first record of each behind its header of 176 bytes.
#[test]
fn first_records(rt: HostRuntime) -> Result<(), Fail> {
    let places = first_places(rt.alloc())?;
    let offsets = [8368, 24752, 41136];
    for (at, ofs) in places.iter().zip(offsets.iter()) {
        assert_eq!(rt; at.file, 0);
        assert_eq!(rt; at.ofs, *ofs);
    }
    Ok(())
}

// The bytes that docs/FORMATS.md draws.
#[test]
fn drawn_bytes(rt: HostRuntime) -> Result<(), Fail> {
    let [data, node] = drawn(rt.alloc())?;
    assert_eq!(rt; missing(data.as_slice(), &DATA), None);
    assert_eq!(rt; missing(node.as_slice(), &NODE), None);
    Ok(())
}
