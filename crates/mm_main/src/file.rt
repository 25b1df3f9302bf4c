// The data file of one collection, which is changed in drafts.
ghost use Rattle.std.specs.Prelude.{◌≡◌, ◌+◌, ◌-◌, ◌<◌, ◌≤◌, ◌^◌, ℕ, ℤ, List, [], ◌∷◌, ◌++◌, pos, negsuc, length, Some, OnOk, IfOk};
ghost use Rattle.mm_base.specs.Bytes.{part, overwritten};
ghost use Rattle.mm_base.specs.Places.{null};
ghost use Rattle.mm_base.specs.Tables.{HasAll};
ghost use Rattle.mm_frames.specs.RecHeader.{rec_header_of, rec_header_table};
ghost use Rattle.mm_main.specs.Room.{file_len, extent_at, first_at, request, block_len};
ghost use Rattle.mm_main.specs.DataFile.{at_file_0, linked, HasFileHeader, HasExtentHeader, IsRecord, IsRest, namespace_of};
ghost use Rattle.mm_ranges.specs.Places.{Covers};
ghost use Rattle.mm_main.specs.Drafted.{drafted, Keeps, IsLaid, HoldsUpTo, LeadsOn, SameBetween};
ghost use Rattle.mm_main.specs.Written.{SameBefore, SameBehind};

use crate::answers::{EXTENT_AT, FILE_LEN, FIRST_AT, block_len};
use mm_base::{DiskLoc, NoMemory, put_bytes};
use mm_frames::{
    CHAIN_END, DELETED_HEADER_LEN, DeletedHeader, EXTENT_MAGIC, ExtentHeader, FileHeader,
    REC_HEADER_LEN, RecHeader, deleted_header_frame, extent_header_frame, file_header_frame,
    read_rec_header, rec_header_frame,
};
use mm_views::Draft;

/// The number of the data file.
pub const FILE: u32 = 0;

/// The length of the one extent, in bytes.
pub const EXTENT_LEN: i32 = 1_040_384;

/// The version of a data file.
pub const VERSION: u32 = 4;

/// The minor version of a data file.
pub const VERSION_MINOR: u32 = 5;

const NAMESPACE_LEN: usize = 128;

/// Where the blocks of the records end, and the offset of the last record, if there is one.
#[derive(Clone, Copy)]
pub struct Chain {
    pub end: usize,
    pub last: Option<usize>,
}

// An offset of the file number 0.
fn place_at(ofs: usize) -> DiskLoc
    requires { ofs < 2 ^ 31 }
    ensures { result ≡ at_file_0 (pos ofs) }
{
    DiskLoc {
        file: 0,
        ofs: ofs as i32,
    }
}

// The place that is none.
fn no_place() -> DiskLoc
    ensures { result ≡ null }
{
    DiskLoc::NULL
}

// Declares some bytes of the file.
fn open(draft: &mut Draft, at: usize, len: usize) -> Result<(), NoMemory>
    requires size { length (drafted draft.old) ≡ file_len }
    requires some { 0 < len }
    requires inside { at + len ≤ file_len }
    ensures same { OnOk result (drafted draft.new ≡ drafted draft.old) }
    ensures opened { OnOk result (Covers draft.new.declared 0 at len) }
    ensures keeps { Keeps draft.old draft.new }
{
    draft.declare(FILE, at as u32, len as u32)?;
    Ok(())
}

// Writes declared bytes of the file.
fn lay(draft: &mut Draft, at: usize, bytes: &[u8])
    requires size { length (drafted draft.old) ≡ file_len }
    requires inside { at + length bytes.now ≤ file_len }
    requires opened { Covers draft.old.declared 0 at (length bytes.now) }
    ensures { IsLaid at bytes.now draft.old draft.new }
{
    draft.write(FILE, at as u32, bytes);
}

// Declares some bytes of the file, and writes them.
fn put(draft: &mut Draft, at: usize, bytes: &[u8]) -> Result<(), NoMemory>
    requires size { length (drafted draft.old) ≡ file_len }
    requires some { 0 < length bytes.now }
    requires inside { at + length bytes.now ≤ file_len }
    ensures ok { OnOk result (drafted draft.new ≡ overwritten at bytes.now (drafted draft.old)) }
    ensures keeps { Keeps draft.old draft.new }
{
    open(draft, at, bytes.len())?;
    lay(draft, at, bytes);
    Ok(())
}

/// Writes the file's header.
pub fn put_header(draft: &mut Draft, unused: usize) -> Result<(), NoMemory>
    requires size { length (drafted draft.old) ≡ file_len }
    requires unused { unused ≤ file_len }
    ensures header { OnOk result (HasFileHeader (drafted draft.new) unused) }
    ensures behind { OnOk result (SameBehind extent_at (drafted draft.old) (drafted draft.new)) }
    ensures keeps { Keeps draft.old draft.new }
{
    let header = FileHeader {
        version: VERSION,
        version_minor: VERSION_MINOR,
        file_length: FILE_LEN as u32,
        unused: place_at(unused),
        unused_length: (FILE_LEN - unused) as u32,
    };
    put(draft, 0, &file_header_frame(&header))
}

// The namespace of a collection of the database `test`.
fn namespace_of(collection: &[u8]) -> [u8; NAMESPACE_LEN]
    requires { length collection.now ≤ 60 }
    ensures { result ≡ namespace_of collection.now }
{
    let mut namespace = [0; NAMESPACE_LEN];
    put_bytes(&mut namespace, 0, b"test.");
    put_bytes(&mut namespace, 5, collection);
    namespace
}

// Writes the header of the one extent.
fn put_extent(draft: &mut Draft, collection: &[u8], last: usize) -> Result<(), NoMemory>
    requires size { length (drafted draft.old) ≡ file_len }
    requires name { length collection.now ≤ 60 }
    requires last { last ≤ file_len }
    ensures header { OnOk result (HasExtentHeader (drafted draft.new) collection.now (pos last)) }
    ensures before { OnOk result (SameBefore extent_at (drafted draft.old) (drafted draft.new)) }
    ensures behind { OnOk result (SameBehind first_at (drafted draft.old) (drafted draft.new)) }
    ensures keeps { Keeps draft.old draft.new }
{
    let header = ExtentHeader {
        magic: EXTENT_MAGIC,
        my_loc: place_at(EXTENT_AT),
        xnext: no_place(),
        xprev: no_place(),
        namespace: namespace_of(collection),
        len: EXTENT_LEN,
        first_record: place_at(FIRST_AT),
        last_record: place_at(last),
    };
    put(draft, EXTENT_AT, &extent_header_frame(&header))
}

// Writes the last record into its block, which is declared.
fn lay_record(draft: &mut Draft, at: usize, len: usize, prev: i32, payload: &[u8])
    requires size { length (drafted draft.old) ≡ file_len }
    requires inside { at + len ≤ file_len }
    requires room { length payload.now + 16 ≤ len }
    requires opened { Covers draft.old.declared 0 at len }
    ensures written { IsRecord (drafted draft.new) at len prev (negsuc 0) payload.now }
    ensures before { SameBefore at (drafted draft.old) (drafted draft.new) }
    ensures declared { draft.new.declared ≡ draft.old.declared }
    ensures keeps { Keeps draft.old draft.new }
{
    let header = RecHeader {
        length_with_headers: len as i32,
        extent_ofs: EXTENT_AT as i32,
        next_ofs: CHAIN_END,
        prev_ofs: prev,
    };
    lay(draft, at, &rec_header_frame(&header));
    lay(draft, at + REC_HEADER_LEN, payload);
}

// Makes the last record so far lead on.
fn put_next(draft: &mut Draft, last: usize, next: usize) -> Result<(), NoMemory>
    requires size { length (drafted draft.old) ≡ file_len }
    requires last { last + 16 ≤ file_len }
    requires next { next ≤ file_len }
    ensures leads { OnOk result (LeadsOn last next (drafted draft.old) (drafted draft.new)) }
    ensures before { OnOk result (SameBefore last (drafted draft.old) (drafted draft.new)) }
    ensures behind { OnOk result (SameBehind (last + 16) (drafted draft.old) (drafted draft.new)) }
    ensures keeps { Keeps draft.old draft.new }
{
    let mut frame = [0; REC_HEADER_LEN];
    draft.read(FILE, last as u32, &mut frame);
    let header = RecHeader {
        next_ofs: next as i32,
        ..read_rec_header(&frame, 0)
    };
    put(draft, last, &rec_header_frame(&header))
}

// Makes one deleted block of what is left of the extent. Its header is declared.
fn lay_rest(draft: &mut Draft, at: usize)
    requires size { length (drafted draft.old) ≡ file_len }
    requires inside { at ≤ file_len }
    requires no_crumb { at < file_len → at + 32 ≤ file_len }
    requires opened { at < file_len → Covers draft.old.declared 0 at 16 }
    ensures rest { IsRest (drafted draft.new) at }
    ensures before { SameBefore at (drafted draft.old) (drafted draft.new) }
    ensures keeps { Keeps draft.old draft.new }
{
    if at == FILE_LEN {
        return;
    }
    let header = DeletedHeader {
        length_with_headers: (FILE_LEN - at) as i32,
        extent_ofs: EXTENT_AT as i32,
        next_deleted: no_place(),
    };
    lay(draft, at, &deleted_header_frame(&header));
}

// Declares a whole block, its padding too, and the header of what is left behind it. So blocks side by side are one range.
fn open_block(draft: &mut Draft, at: usize, len: usize) -> Result<(), NoMemory>
    requires size { length (drafted draft.old) ≡ file_len }
    requires some { 0 < len }
    requires inside { at + len ≤ file_len }
    requires no_crumb { at + len < file_len → at + len + 32 ≤ file_len }
    ensures same { OnOk result (drafted draft.new ≡ drafted draft.old) }
    ensures block { OnOk result (Covers draft.new.declared 0 at len) }
    ensures rest { OnOk result (at + len < file_len → Covers draft.new.declared 0 (at + len) 16) }
    ensures keeps { Keeps draft.old draft.new }
{
    let end = (at + len + DELETED_HEADER_LEN).min(FILE_LEN);
    open(draft, at, end - at)
}

// Writes the extent with one record more, and what is left behind it.
fn put_block(
    draft: &mut Draft,
    collection: &[u8],
    at: usize,
    prev: i32,
    payload: &[u8],
) -> Result<Chain, NoMemory>
    requires size { length (drafted draft.old) ≡ file_len }
    requires name { length collection.now ≤ 60 }
    requires behind { first_at ≤ at }
    requires payload { length payload.now < 2 ^ 63 }
    requires room { request (length payload.now) ≤ file_len - at }
    ensures chain { IfOk result (λ chain. (chain.end ≡ at + block_len at (length payload.now)) × (chain.last ≡ Some at)) }
    ensures extent { OnOk result (HasExtentHeader (drafted draft.new) collection.now (pos at)) }
    ensures record { OnOk result (IsRecord (drafted draft.new) at (block_len at (length payload.now)) prev (negsuc 0) payload.now) }
    ensures rest { OnOk result (IsRest (drafted draft.new) (at + block_len at (length payload.now))) }
    ensures before { OnOk result (SameBefore extent_at (drafted draft.old) (drafted draft.new)) }
    ensures between { OnOk result (SameBetween first_at at (drafted draft.old) (drafted draft.new)) }
    ensures keeps { Keeps draft.old draft.new }
{
    let len = block_len(at, payload.len());
    put_extent(draft, collection, at)?;
    open_block(draft, at, len)?;
    lay_record(draft, at, len, prev, payload);
    lay_rest(draft, at + len);
    Ok(Chain {
        end: at + len,
        last: Some(at),
    })
}

// Writes the extent with its first record.
fn insert_first(draft: &mut Draft, collection: &[u8], payload: &[u8]) -> Result<Chain, NoMemory>
    requires size { length (drafted draft.old) ≡ file_len }
    requires name { length collection.now ≤ 60 }
    requires payload { length payload.now < 2 ^ 63 }
    requires room { request (length payload.now) ≤ file_len - first_at }
    ensures stands { IfOk result (λ chain. HoldsUpTo collection.now (payload.now ∷ []) (drafted draft.new) chain.end chain.last) }
    ensures keeps { Keeps draft.old draft.new }
{
    put_header(draft, FILE_LEN)?;
    put_block(draft, collection, FIRST_AT, CHAIN_END, payload)
}

// Writes one record more behind the last one.
fn insert_next(
    draft: &mut Draft,
    collection: &[u8],
    last: usize,
    at: usize,
    payload: &[u8],
) -> Result<Chain, NoMemory>
    requires size { length (drafted draft.old) ≡ file_len }
    requires name { length collection.now ≤ 60 }
    requires behind { first_at ≤ at }
    requires payload { length payload.now < 2 ^ 63 }
    requires room { request (length payload.now) ≤ file_len - at }
    requires last { first_at ≤ last }
    requires apart { last + 16 ≤ at }
    requires inside { at ≤ file_len }
    ensures stands { (payloads : List (List ℕ)) → HoldsUpTo collection.now payloads (drafted draft.old) at (Some last)
        → IfOk result (λ chain. HoldsUpTo collection.now (payloads ++ payload.now ∷ []) (drafted draft.new) chain.end chain.last) }
    ensures keeps { Keeps draft.old draft.new }
{
    put_next(draft, last, at)?;
    put_block(draft, collection, at, last as i32, payload)
}

/// Inserts a payload that has room behind the records of the collection.
pub fn insert(
    draft: &mut Draft,
    collection: &[u8],
    chain: Chain,
    payload: &[u8],
) -> Result<Chain, NoMemory>
    requires size { length (drafted draft.old) ≡ file_len }
    requires name { length collection.now ≤ 60 }
    requires payload { length payload.now < 2 ^ 63 }
    requires room { request (length payload.now) ≤ file_len - chain.end }
    requires stands { (payloads : List (List ℕ)) × HoldsUpTo collection.now payloads (drafted draft.old) chain.end chain.last }
    ensures stands { (payloads : List (List ℕ)) → HoldsUpTo collection.now payloads (drafted draft.old) chain.end chain.last
        → IfOk result (λ next. HoldsUpTo collection.now (payloads ++ payload.now ∷ []) (drafted draft.new) next.end next.last) }
    ensures keeps { Keeps draft.old draft.new }
{
    match chain.last {
        None => insert_first(draft, collection, payload),
        Some(last) => insert_next(draft, collection, last, chain.end, payload),
    }
}
